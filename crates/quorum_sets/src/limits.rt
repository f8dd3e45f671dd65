/// No group has more masters than this.
pub const MOST_MASTERS: u32 = 14;

/// The length of a table with a place for each master.
pub const MASTER_PLACES: usize = MOST_MASTERS as usize;

/// No plant has more clients than this, its proxies and screens together.
pub const MOST_CLIENTS: u32 = 12;

/// The length of a table with a place for each client.
pub const CLIENT_PLACES: usize = MOST_CLIENTS as usize;
