#![tactic(auto)]

// What a program does with a text in PNML. Each function is proved from the contract of `call_plans:convert`.
ghost use Rattle.std.specs.Prelude.{length};
ghost use Rattle.clients_pnml.specs.Drawn.{Tells};

use file_header::Due;
use refusals::Refusal;

// The places and the transitions of the plan of a text, its edition and where its body starts. Lost: what was written is no plan, which the contract excludes. No Option: the reader sees why.
#[derive(Clone, Copy, Debug, PartialEq, Eq)]
pub enum Drawn {
    Net(usize, usize, usize, usize),
    Lost,
}

// Converts a text, and reads what was written.
pub fn convert_and_read(text: &[u8], buffer: &mut [u8]) -> Result<Drawn, Refusal>
    ensures { Tells text.now (length buffer.old) result }
{
    let n = call_plans::texts::convert(text, buffer)?;
    let long = n as usize;
    let Ok(h) = file::read(&buffer[..long], Due::Plan) else {
        return Ok(Drawn::Lost);
    };
    Ok(Drawn::Net(h.places, h.transitions, h.edition, h.markstart))
}
