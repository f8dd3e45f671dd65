//! How large a plant may be. (These are this project's own limits.)

/// No plant has more proxies than this. Behind each is one field device.
pub const MOST_PROXIES: usize = 8;

/// No plant has more screens than this. They and the proxies are its clients.
pub const MOST_SCREENS: u32 = 4;

/// No plant has more interlocks than this.
pub const MOST_INTERLOCKS: usize = 64;
