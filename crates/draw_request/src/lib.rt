// The input of the program `draws`: `state,count` and a line end.
#![tactic(auto)]

ghost use Rattle.std.specs.Prelude.{◌≡◌};
ghost use Rattle.draw_request.specs.Requests as Requests;

use text::read::{decimal, split_field, without_end};

#[derive(Clone, Copy)]
pub struct Request {
    pub state: u32,
    pub count: u32,
}

// What an input asks for. A count with a comma in it is none, so there are two fields; and an input of more than 16 bytes is refused
// (`long_refused` in the proofs).
pub fn read_request(input: &[u8]) -> Option<Request>
    ensures { result ≡ Requests.read_request input.now }
{
    let (state, count) = split_field(without_end(input)?)?;
    Some(Request {
        state: decimal(state, u32::MAX)?,
        count: decimal(count, 1000)?,
    })
}
