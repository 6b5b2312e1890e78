// The bytes of a record's parts: the header is a tag byte and a two-byte length; then the payload of each tag.
pub(crate) const HEADER: usize = 3;

pub(crate) const ADMIT: u16 = 21;

// Wake, block and remove: a time and an identifier.
pub(crate) const NAMING: u16 = 11;

pub(crate) const TICK: u16 = 8;

// Whole records.
pub(crate) const ADMIT_RECORD: usize = HEADER + ADMIT as usize;

pub(crate) const NAMING_RECORD: usize = HEADER + NAMING as usize;

pub(crate) const TICK_RECORD: usize = HEADER + TICK as usize;
