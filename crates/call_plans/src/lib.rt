#![tactic(auto)]

// The public calls about plans: those that write plan files, and the change of plan. No call asks anything of its caller: bad input is refused with its number.
// A file that cannot be read ends the call there: the form for that is `let .. else` on the reader's answer at the head of each call, a rule of the project. All else is handed on by `?`.
pub mod forms;
pub mod texts;
pub mod transfers;
