// The numbers of statuses and requests.
// They are no enums, since narrower types would ask more of callers: `Span::link` takes any status and `Span::operate` any request (`linked`, `asked`), a `Span` holds any, and `SpanKept` is where those of 01 are asked for.

pub const GOOD: u8 = 0;

pub const DEGRADED: u8 = 1;

pub const FAILED: u8 = 2;

pub const FS: u8 = 5;

pub const SF: u8 = 4;

pub const SD: u8 = 3;

pub const MS: u8 = 2;

pub const WTR: u8 = 1;

pub const IDLE: u8 = 0;

// No automatic request, no operator request.
pub const NONE: u8 = 0;
