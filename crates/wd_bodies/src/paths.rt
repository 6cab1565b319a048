//! The paths that the hub, its nodes and those who ask them have in common.

/// New Session (WebDriver §8.1).
pub const SESSIONS: &str = "/session";

/// What the path of a session begins with, before its id (WebDriver §8.2).
pub const BEFORE_SESSION: &str = "/session/";

/// Status (WebDriver §8.3).
pub const STATUS: &str = "/status";

/// Where a node registers.
pub const NODES: &str = "/se/grid/distributor/node";

/// What the path of a node begins with, before its number.
pub const BEFORE_NODE: &str = "/se/grid/distributor/node/";
