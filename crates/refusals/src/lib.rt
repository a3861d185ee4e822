#![tactic(auto)]

// The refusals, and their numbers: the C interface answers these.
ghost use Rattle.std.specs.Prelude.{◌≡◌};
ghost use Rattle.refusals.specs.Numbers.{number};

// Why a call is turned back: 1 to 25, in this order.
#[derive(Clone, Copy, Debug, PartialEq, Eq)]
pub enum Refusal {
    // a file below 16 or above 65,536 bytes, or a text in PNML above 65,536
    Length,
    // the trailer: no letters BELL, or an edition that is neither 1 nor 2
    Letters,
    // the trailer: a kind that is none, or not the one that is due
    Kind,
    // the trailer: too many places, transitions or arcs, or a plan with neither place nor transition
    Counts,
    // the trailer: a body of another length than the counts give, or than there is
    Body,
    // an arc with a field out of range
    Arc,
    // an arc below the arc before it
    Order,
    // an origin that is not above the one before it
    Origins,
    // a criterion in bytes, with an odd number of them
    Criterion,
    // a criterion or a place: no such place, or a place twice
    Place,
    // a list above 65,535 entries
    List,
    // a list or a transition: no such transition
    Transition,
    // a buffer shorter than what is written
    Buffer,
    // the list of a run cut that is stuck
    Stuck,
    // a marking that has not a number for each place
    Marking,
    // a place whose marking is above its cap
    Cap,
    // a plan that has caps, where none may be
    Capped,
    // a text in PNML outside the profile
    Profile,
    // a text in PNML with an id twice, or an arc that joins no place and transition
    Id,
    // a text in PNML with a number or a count past its limit
    Number,
    // an upper list with not a number for each place, or one below the plan's marking
    Upper,
    // a start or a table with not an entry for each place, or no such new place
    Entries,
    // a table that has no new place for a place with tokens
    Stranded,
    // a start or a carried sum above what a file or the cap allows
    Tokens,
    // parallel arcs that weigh more than 65,535 together
    Weight,
}

impl Refusal {
    // The number of a refusal.
    pub fn number(self) -> u32
        ensures { result ≡ number self }
    {
        match self {
            Refusal::Length => 1,
            Refusal::Letters => 2,
            Refusal::Kind => 3,
            Refusal::Counts => 4,
            Refusal::Body => 5,
            Refusal::Arc => 6,
            Refusal::Order => 7,
            Refusal::Origins => 8,
            Refusal::Criterion => 9,
            Refusal::Place => 10,
            Refusal::List => 11,
            Refusal::Transition => 12,
            Refusal::Buffer => 13,
            Refusal::Stuck => 14,
            Refusal::Marking => 15,
            Refusal::Cap => 16,
            Refusal::Capped => 17,
            Refusal::Profile => 18,
            Refusal::Id => 19,
            Refusal::Number => 20,
            Refusal::Upper => 21,
            Refusal::Entries => 22,
            Refusal::Stranded => 23,
            Refusal::Tokens => 24,
            Refusal::Weight => 25,
        }
    }
}
