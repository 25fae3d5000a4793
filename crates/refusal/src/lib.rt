// What a call that is refused answers with.
#![tactic(auto)]

// Document 01's number for what is turned down, and the byte offset that it stands at. The number is the one that C is given.
#[derive(Clone, Copy, Debug, PartialEq, Eq)]
pub struct Refusal {
    pub number: u8,
    pub offset: usize,
}
