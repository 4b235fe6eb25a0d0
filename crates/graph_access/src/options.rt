// Bits of the options.
pub const TREESHAKE: usize = 0;

pub const INLINE_CONST_SMART: usize = 1;

pub const COMMONJS_SHAKING: usize = 2;

pub const PROPERTY_WRITES_FALSE: usize = 3;

pub const DEV_MODE: usize = 4;
