#![tactic(auto)]

// What somebody's box does with the public calls: the answer of one call goes to the next. Each contract needs a promise of a call in full,
// so a promise that says less breaks a proof here. They are also examples of the calls from Rattle.
pub mod c_calls;
pub mod cuts;
pub mod lists;
pub mod recorded;
pub mod rooms;
pub mod shadows;
pub mod takings;
