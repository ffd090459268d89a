// What sequence numbers tell. A record's number, or the previous one, is an `Option<u16>`: there may be none.

// How a record follows (rule 12.6): so many lost before it, a repeat, or late. An old record has no number that could tell.
#[derive(Clone, Copy)]
pub enum Follows {
    Unnumbered,
    Lost(u16),
    Repeat,
    Late,
}
