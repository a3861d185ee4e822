#![tactic(auto)]

// The public calls that fire transitions: effect, arc run, replay, a run and its shadow, takings, a range of markings; replay from a lent marking. No call asks anything of its caller: bad input is refused with its number.
// A file that cannot be read ends the call there: the form for that is `let .. else` on the reader's answer at the head of each call, a rule of the project. All else is handed on by `?`.
pub mod effects;
pub mod ranges;
pub mod replays;
pub mod runs;
pub mod shadows;
pub mod starts;
pub mod takings;
