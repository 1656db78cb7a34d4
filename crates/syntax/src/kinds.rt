// The kinds of tokens; that of any other sign is its byte.
pub const END: u8 = 0;

pub(crate) const NO_TOKEN: u8 = 1;

pub const NAME: u8 = b'a';

pub const TRUE: u8 = b't';

pub const FALSE: u8 = b'f';

// The plan words.
pub const ONCE: u8 = b'o';

pub const BEFORE: u8 = b'b';

pub const AFTER: u8 = b'e';

pub const WITHIN: u8 = b'w';

pub const DURING: u8 = b'd';

pub const OPEN: u8 = b'(';

pub const CLOSE: u8 = b')';

pub const COMMA: u8 = b',';

// The digit 0; the others follow it.
pub const ZERO: u8 = b'0';

// The operators.
pub const IMPLIES: u8 = b'-';

pub const UNTIL: u8 = b'U';

pub const RELEASE: u8 = b'R';

pub const AND: u8 = b'&';

pub const OR: u8 = b'|';

pub const NOT: u8 = b'!';

pub const NEXT: u8 = b'X';

pub const WEAK_NEXT: u8 = b'N';

pub const EVENTUALLY: u8 = b'F';

pub const ALWAYS: u8 = b'G';
