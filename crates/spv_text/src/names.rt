ghost use Rattle.std.specs.Prelude.{◌≡◌, ◌<◌, slice_index};
ghost use Rattle.listing_model.specs.Names as spec;
ghost use Rattle.spv_text.specs.Names.{name_hash, row_name, seen_name};

/// The bytes of a row of `NAMES`: a name with spaces behind it, and its length.
const ROW_BYTES: usize = 24;

/// The names of the opcodes that have one, in ascending order of the opcodes.
static NAMES: [u8; 1944] = *b"\
    OpUndef                \x07\
    OpExtInstImport        \x0f\
    OpMemoryModel          \x0d\
    OpEntryPoint           \x0c\
    OpExecutionMode        \x0f\
    OpCapability           \x0c\
    OpTypeVoid             \x0a\
    OpTypeBool             \x0a\
    OpTypeInt              \x09\
    OpTypeVector           \x0c\
    OpTypeArray            \x0b\
    OpTypeStruct           \x0c\
    OpTypePointer          \x0d\
    OpTypeFunction         \x0e\
    OpConstantTrue         \x0e\
    OpConstantFalse        \x0f\
    OpConstant             \x0a\
    OpConstantComposite    \x13\
    OpConstantNull         \x0e\
    OpSpecConstantTrue     \x12\
    OpSpecConstantFalse    \x13\
    OpSpecConstant         \x0e\
    OpSpecConstantComposite\x17\
    OpSpecConstantOp       \x10\
    OpFunction             \x0a\
    OpFunctionEnd          \x0d\
    OpVariable             \x0a\
    OpLoad                 \x06\
    OpStore                \x07\
    OpAccessChain          \x0d\
    OpDecorate             \x0a\
    OpMemberDecorate       \x10\
    OpVectorShuffle        \x0f\
    OpCompositeConstruct   \x14\
    OpCompositeExtract     \x12\
    OpCompositeInsert      \x11\
    OpBitcast              \x09\
    OpSNegate              \x09\
    OpIAdd                 \x06\
    OpISub                 \x06\
    OpIMul                 \x06\
    OpUDiv                 \x06\
    OpSDiv                 \x06\
    OpUMod                 \x06\
    OpSRem                 \x06\
    OpSMod                 \x06\
    OpAny                  \x05\
    OpAll                  \x05\
    OpLogicalEqual         \x0e\
    OpLogicalNotEqual      \x11\
    OpLogicalOr            \x0b\
    OpLogicalAnd           \x0c\
    OpLogicalNot           \x0c\
    OpSelect               \x08\
    OpIEqual               \x08\
    OpINotEqual            \x0b\
    OpUGreaterThan         \x0e\
    OpSGreaterThan         \x0e\
    OpUGreaterThanEqual    \x13\
    OpSGreaterThanEqual    \x13\
    OpULessThan            \x0b\
    OpSLessThan            \x0b\
    OpULessThanEqual       \x10\
    OpSLessThanEqual       \x10\
    OpShiftRightLogical    \x13\
    OpShiftRightArithmetic \x16\
    OpShiftLeftLogical     \x12\
    OpBitwiseOr            \x0b\
    OpBitwiseXor           \x0c\
    OpBitwiseAnd           \x0c\
    OpNot                  \x05\
    OpPhi                  \x05\
    OpLoopMerge            \x0b\
    OpSelectionMerge       \x10\
    OpLabel                \x07\
    OpBranch               \x08\
    OpBranchConditional    \x13\
    OpSwitch               \x08\
    OpKill                 \x06\
    OpReturn               \x08\
    OpUnreachable          \x0d\
";

/// By opcode, 1 and the number of its row in `NAMES`, or 0 where it has none.
static ROW_NUMBERS: [u8; 256] = [
    0, 1, 0, 0, 0, 0, 0, 0, 0, 0, 0, 2, 0, 0, 3, 4, 5, 6, 0, 7, 8, 9, 0, 10, 0, 0, 0, 0, 11, 0, 12,
    0, 13, 14, 0, 0, 0, 0, 0, 0, 0, 15, 16, 17, 18, 0, 19, 0, 20, 21, 22, 23, 24, 0, 25, 0, 26, 0,
    0, 27, 0, 28, 29, 0, 0, 30, 0, 0, 0, 0, 0, 31, 32, 0, 0, 0, 0, 0, 0, 33, 34, 35, 36, 0, 0, 0,
    0, 0, 0, 0, 0, 0, 0, 0, 0, 0, 0, 0, 0, 0, 0, 0, 0, 0, 0, 0, 0, 0, 0, 0, 0, 0, 0, 0, 0, 0, 0, 0,
    0, 0, 0, 0, 0, 0, 37, 0, 38, 0, 39, 0, 40, 0, 41, 0, 42, 43, 0, 44, 45, 46, 0, 0, 0, 0, 0, 0,
    0, 0, 0, 0, 0, 0, 0, 0, 47, 48, 0, 0, 0, 0, 0, 0, 0, 0, 49, 50, 51, 52, 53, 54, 55, 56, 57, 58,
    59, 60, 61, 62, 63, 64, 0, 0, 0, 0, 0, 0, 0, 0, 0, 0, 0, 0, 0, 0, 65, 66, 67, 68, 69, 70, 71,
    0, 0, 0, 0, 0, 0, 0, 0, 0, 0, 0, 0, 0, 0, 0, 0, 0, 0, 0, 0, 0, 0, 0, 0, 0, 0, 0, 0, 0, 0, 0, 0,
    0, 0, 0, 0, 0, 0, 0, 0, 0, 0, 0, 0, 72, 73, 74, 75, 76, 77, 78, 79, 80, 0, 81,
];

/// By `name_hash`, an opcode whose name has it, or 0 where none has.
static OPS_BY_HASH: [u8; 512] = [
    138, 0, 81, 245, 0, 0, 0, 168, 0, 0, 195, 164, 0, 0, 0, 0, 0, 0, 0, 0, 176, 0, 0, 0, 0, 0, 0,
    0, 0, 0, 0, 0, 197, 0, 0, 0, 0, 0, 0, 0, 0, 0, 0, 0, 0, 0, 0, 0, 0, 0, 0, 0, 0, 0, 248, 0, 0,
    0, 28, 0, 0, 0, 0, 0, 0, 0, 0, 0, 0, 246, 0, 0, 0, 44, 0, 0, 126, 0, 0, 0, 0, 0, 17, 0, 0, 130,
    0, 0, 0, 0, 0, 0, 0, 200, 0, 0, 0, 0, 166, 19, 0, 0, 0, 0, 0, 0, 0, 0, 0, 0, 0, 0, 0, 0, 0, 0,
    0, 0, 0, 0, 0, 249, 0, 21, 0, 0, 0, 0, 0, 61, 0, 20, 0, 0, 0, 0, 155, 0, 0, 0, 0, 0, 0, 0, 179,
    0, 0, 0, 0, 0, 0, 0, 0, 0, 0, 0, 0, 171, 0, 0, 0, 0, 0, 79, 0, 62, 0, 139, 0, 0, 0, 0, 0, 0, 0,
    0, 0, 0, 0, 0, 196, 0, 0, 0, 0, 0, 65, 56, 0, 0, 0, 0, 178, 0, 0, 0, 255, 0, 52, 0, 0, 0, 0, 0,
    0, 0, 0, 0, 0, 0, 0, 0, 0, 0, 0, 137, 0, 0, 0, 0, 0, 0, 173, 32, 0, 0, 0, 0, 0, 247, 0, 0, 0,
    0, 0, 0, 0, 0, 0, 165, 0, 0, 0, 0, 0, 0, 0, 0, 0, 0, 0, 0, 0, 0, 0, 0, 0, 0, 0, 0, 0, 0, 0, 0,
    0, 0, 0, 0, 0, 0, 172, 0, 0, 71, 0, 0, 0, 0, 0, 0, 250, 0, 0, 0, 0, 0, 0, 0, 0, 14, 0, 0, 0, 0,
    0, 33, 194, 0, 0, 0, 0, 0, 0, 0, 0, 0, 51, 46, 253, 0, 0, 0, 11, 0, 0, 0, 0, 0, 0, 0, 72, 170,
    0, 175, 0, 0, 0, 0, 0, 0, 0, 0, 0, 0, 0, 0, 0, 0, 0, 0, 0, 48, 0, 41, 0, 54, 0, 0, 169, 0, 0,
    0, 0, 0, 0, 252, 0, 0, 0, 0, 0, 0, 0, 128, 0, 16, 0, 0, 0, 0, 0, 174, 0, 0, 0, 0, 0, 0, 0, 0,
    0, 0, 0, 0, 0, 50, 0, 0, 0, 0, 0, 0, 0, 0, 0, 0, 0, 0, 0, 124, 0, 0, 0, 0, 0, 15, 0, 0, 49,
    251, 42, 59, 0, 0, 0, 0, 0, 0, 0, 0, 82, 0, 0, 0, 0, 80, 0, 0, 0, 0, 0, 0, 0, 0, 0, 0, 0, 198,
    135, 30, 0, 43, 0, 0, 0, 0, 0, 0, 0, 0, 23, 0, 0, 0, 0, 167, 0, 0, 0, 0, 0, 0, 0, 0, 0, 0, 0,
    0, 0, 0, 0, 132, 0, 0, 0, 0, 0, 0, 0, 0, 0, 0, 0, 0, 177, 0, 134, 0, 0, 0, 0, 0, 0, 0, 0, 0, 0,
    0, 0, 1, 0, 0, 0, 0, 0, 0, 0, 0, 154, 199, 0, 0,
];

/// The name of an opcode, if it has one (SPIR-V specification, section 3.49 "Instructions").
pub fn name_of(op: u16) -> Option<&'static [u8]>
    ensures { seen_name result ≡ spec.name_of op }
{
    let number = byte_at(&ROW_NUMBERS, usize::from(op));
    if number == 0 {
        return None;
    }
    Some(row_name(number))
}

/// The name in the row with this number, counted from 1.
fn row_name(number: usize) -> &'static [u8]
    requires { number < 256 }
    ensures { result.now ≡ row_name number }
{
    let names: &'static [u8] = &NAMES;
    let (_, from) = names.split_at(
        (ROW_BYTES * number)
            .saturating_sub(ROW_BYTES)
            .min(names.len()),
    );
    let (row, _) = from.split_at(from.len().min(ROW_BYTES));
    let (name, _) = row.split_at(row.len().min(byte_at(row, ROW_BYTES - 1)));
    name
}

/// The opcode with this name, if there is one.
pub fn op_named(name: &[u8]) -> Option<u16>
    ensures { result ≡ spec.op_named name.now }
{
    let op = byte_at(&OPS_BY_HASH, name_hash(name)) as u16;
    match name_of(op) {
        Some(own) if own == name => Some(op),
        _ => None,
    }
}

/// A number below 512 that tells the names apart.
#[tactic(auto, unfolding(crate::specs::Names::name_hash))]
fn name_hash(name: &[u8]) -> usize
    ensures { result ≡ name_hash name.now }
{
    let length = name.len();
    let hash = 67 * (length % 512)
        + 24 * byte_at(name, 2)
        + 68 * byte_at(name, length.saturating_sub(1))
        + 49 * byte_at(name, length / 2);
    hash % 512
}

fn byte_at(bytes: &[u8], place: usize) -> usize
    ensures value { result ≡ slice_index bytes.now place }
    ensures within { result < 256 }
{
    usize::from(bytes.get(place).copied().unwrap_or(0))
}
