//! Colour formats, by numbers of this project's own: so many 32-bit components, unsigned or signed.

/// `VK_FORMAT_R32_UINT`.
pub const FORMAT_R32_UINT: u8 = 1;
/// `VK_FORMAT_R32G32_UINT`.
pub const FORMAT_R32G32_UINT: u8 = 2;
/// `VK_FORMAT_R32G32B32_UINT`.
pub const FORMAT_R32G32B32_UINT: u8 = 3;
/// `VK_FORMAT_R32G32B32A32_UINT`.
pub const FORMAT_R32G32B32A32_UINT: u8 = 4;
/// `VK_FORMAT_R32_SINT`.
pub const FORMAT_R32_SINT: u8 = 5;
/// `VK_FORMAT_R32G32_SINT`.
pub const FORMAT_R32G32_SINT: u8 = 6;
/// `VK_FORMAT_R32G32B32_SINT`.
pub const FORMAT_R32G32B32_SINT: u8 = 7;
/// `VK_FORMAT_R32G32B32A32_SINT`.
pub const FORMAT_R32G32B32A32_SINT: u8 = 8;
