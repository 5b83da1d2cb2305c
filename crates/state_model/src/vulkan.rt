//! Vulkan's enumerations that a state holds as numbers.

// `VkCompareOp`: the comparison of a new with an old depth.

/// `VK_COMPARE_OP_NEVER`.
pub const COMPARE_OP_NEVER: u8 = 0;
/// `VK_COMPARE_OP_LESS`.
pub const COMPARE_OP_LESS: u8 = 1;
/// `VK_COMPARE_OP_EQUAL`.
pub const COMPARE_OP_EQUAL: u8 = 2;
/// `VK_COMPARE_OP_LESS_OR_EQUAL`.
pub const COMPARE_OP_LESS_OR_EQUAL: u8 = 3;
/// `VK_COMPARE_OP_GREATER`.
pub const COMPARE_OP_GREATER: u8 = 4;
/// `VK_COMPARE_OP_NOT_EQUAL`.
pub const COMPARE_OP_NOT_EQUAL: u8 = 5;
/// `VK_COMPARE_OP_GREATER_OR_EQUAL`.
pub const COMPARE_OP_GREATER_OR_EQUAL: u8 = 6;
/// `VK_COMPARE_OP_ALWAYS`.
pub const COMPARE_OP_ALWAYS: u8 = 7;

// `VkLogicOp`: what is written, of the source and the destination.

/// `VK_LOGIC_OP_CLEAR`.
pub const LOGIC_OP_CLEAR: u8 = 0;
/// `VK_LOGIC_OP_AND`.
pub const LOGIC_OP_AND: u8 = 1;
/// `VK_LOGIC_OP_AND_REVERSE`.
pub const LOGIC_OP_AND_REVERSE: u8 = 2;
/// `VK_LOGIC_OP_COPY`.
pub const LOGIC_OP_COPY: u8 = 3;
/// `VK_LOGIC_OP_AND_INVERTED`.
pub const LOGIC_OP_AND_INVERTED: u8 = 4;
/// `VK_LOGIC_OP_NO_OP`.
pub const LOGIC_OP_NO_OP: u8 = 5;
/// `VK_LOGIC_OP_XOR`.
pub const LOGIC_OP_XOR: u8 = 6;
/// `VK_LOGIC_OP_OR`.
pub const LOGIC_OP_OR: u8 = 7;
/// `VK_LOGIC_OP_NOR`.
pub const LOGIC_OP_NOR: u8 = 8;
/// `VK_LOGIC_OP_EQUIVALENT`.
pub const LOGIC_OP_EQUIVALENT: u8 = 9;
/// `VK_LOGIC_OP_INVERT`.
pub const LOGIC_OP_INVERT: u8 = 10;
/// `VK_LOGIC_OP_OR_REVERSE`.
pub const LOGIC_OP_OR_REVERSE: u8 = 11;
/// `VK_LOGIC_OP_COPY_INVERTED`.
pub const LOGIC_OP_COPY_INVERTED: u8 = 12;
/// `VK_LOGIC_OP_OR_INVERTED`.
pub const LOGIC_OP_OR_INVERTED: u8 = 13;
/// `VK_LOGIC_OP_NAND`.
pub const LOGIC_OP_NAND: u8 = 14;
/// `VK_LOGIC_OP_SET`.
pub const LOGIC_OP_SET: u8 = 15;

// `VkCullModeFlags`: which triangles are dropped.

/// `VK_CULL_MODE_NONE`.
pub const CULL_MODE_NONE: u8 = 0;
/// `VK_CULL_MODE_FRONT_BIT`.
pub const CULL_MODE_FRONT: u8 = 1;
/// `VK_CULL_MODE_BACK_BIT`.
pub const CULL_MODE_BACK: u8 = 2;
/// `VK_CULL_MODE_FRONT_AND_BACK`.
pub const CULL_MODE_FRONT_AND_BACK: u8 = 3;

// `VkSampleCountFlagBits`.

/// `VK_SAMPLE_COUNT_1_BIT`.
pub const SAMPLE_COUNT_1: u8 = 1;
/// `VK_SAMPLE_COUNT_2_BIT`.
pub const SAMPLE_COUNT_2: u8 = 2;
/// `VK_SAMPLE_COUNT_4_BIT`.
pub const SAMPLE_COUNT_4: u8 = 4;
