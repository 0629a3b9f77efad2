// Sizes, offsets and limits of a medium, each named once: the code's side of specs/Sizes.
ghost use Rattle.std.specs.Prelude.{◌≡◌, ◌≤◌};
ghost use Rattle.storage.specs.Sizes.{places_limit, medium_size};

// The widths of numbers, and of a check.
pub const LONG: usize = 8;

pub const WORD: usize = 4;

pub const CHECK: usize = 4;
// A slot's numbers, each behind the one before, its zeros and its check.
pub const PROMISE_AT: usize = 0;

pub const LOW_AT: usize = PROMISE_AT + LONG;

pub const LOCAL_AT: usize = LOW_AT + LONG;

pub const ZEROS_AT: usize = LOCAL_AT + LONG;

pub const SLOT_CHECKED: usize = ZEROS_AT + WORD;

pub const SLOT: usize = SLOT_CHECKED + CHECK;
// The two slots before the places.
pub const SLOTS: usize = 2 * SLOT;
// A place's numbers, each behind the one before, its data, its zeros and its check.
pub const ID_AT: usize = 0;

pub const CLIENT_AT: usize = ID_AT + LONG;

pub const GENERATION_AT: usize = CLIENT_AT + WORD;

pub const PARTITION_AT: usize = GENERATION_AT + WORD;

pub const SEQUENCE_AT: usize = PARTITION_AT + WORD;

pub const HEADER_AT: usize = SEQUENCE_AT + LONG;

pub const LENGTH_AT: usize = HEADER_AT + WORD;

pub const DATA_AT: usize = LENGTH_AT + WORD;

pub const DATA_LIMIT: usize = 28;

pub const PLACE_ZEROS_AT: usize = DATA_AT + DATA_LIMIT;

pub const PLACE_CHECKED: usize = PLACE_ZEROS_AT + WORD;

pub const PLACE: usize = PLACE_CHECKED + CHECK;
// The most places of a medium.
pub const PLACES_LIMIT: u64 = 1000;

// The bytes of a place.
pub type Place = [u8; PLACE];

// The bytes of a medium of so many places.
pub fn medium_size(places: u64) -> usize
    requires { places ≤ places_limit }
    ensures { result ≡ medium_size places }
{
    SLOTS + PLACE * places as usize
}
