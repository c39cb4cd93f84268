//! The limits that many crates keep. Each stands here once; clauses and specs name it.

/// The number of the last civil minute, 2099-12-31T23:59, and the longest delay in minutes.
pub const LAST_MINUTE: u32 = 52_595_999;

/// The most entries of a history, so that what it keeps in memory is bounded.
pub const MAX_STEPS: usize = 1_000_000;

/// The highest number of a duration limit, in minutes, and of a cap; the least is 1.
pub const MAX_COUNT: u32 = 1_000_000;

/// The highest number of four bytes: of names, edges and sessions, as `u32.MAX` in clauses.
pub const MAX_NUMBER: u32 = u32::MAX;

/// The most bytes of a name.
pub const LONGEST_NAME: usize = 32;

/// The most bytes of a line of requests, without its line feed.
pub const LONGEST_LINE: usize = 512;

/// The most bytes of a line of a policy, without its line feed.
pub const LONGEST_POLICY_LINE: usize = 4_096;

/// The highest priority, which requests alone may have.
pub const MAX_PRIO: u8 = 100;

/// The highest priority of what a policy declares.
pub const MAX_POLICY_PRIO: u8 = 99;

/// The most units that the length of a periodic expression counts.
pub const MAX_LENGTH: u32 = 1_000;

/// The most roles of a policy.
pub const MAX_ROLES: u32 = 1_000;

/// The most users of a policy.
pub const MAX_USERS: u32 = 10_000;

/// The most permissions of a policy.
pub const MAX_PERMS: u32 = 10_000;

/// The most periods of a policy.
pub const MAX_PERIODS: u32 = 1_000;

/// The most duration limits of a policy.
pub const MAX_LIMITS: u32 = 1_000;

/// The most edges of a policy's hierarchy.
pub const MAX_EDGES: u32 = 4_000;

/// The most periodic entries of a policy.
pub const MAX_ENTRIES: u32 = 4_000;

/// The most triggers of a policy.
pub const MAX_TRIGGERS: u32 = 4_000;

/// The most items of a trigger's body.
pub const MAX_ITEMS: usize = 16;

/// The most assignments that a policy opens with.
pub const MAX_ASSIGNED: u32 = 50_000;

/// The most grants that a policy opens with.
pub const MAX_GRANTED: u32 = 50_000;

/// The most sessions that are open at once.
pub const MAX_SESSIONS: usize = 10_000;

/// The most edges of a walk of roles, none of which it enters twice.
pub const LONGEST_WALK: usize = 999;

/// The most bytes that are taken from one connection.
pub const MAX_BYTES: usize = 67_108_864;

/// The most connections that one front serves.
pub const MAX_LINKS: usize = 100_000;
