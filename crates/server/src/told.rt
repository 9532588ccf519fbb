// What the scheduler answers, as records.
ghost use Rattle.std.specs.Prelude.{◌≡◌};
ghost use Rattle.server.specs.Told.{told};

use records::answer::Answer;
use records::refusal::Refusal;
use scheduler::reply::Reply;

/// The record of the answer to the request at `place`. It is made of two values, so it is no `From`.
pub fn answer_record(place: u32, answer: Result<Reply, Refusal>) -> Answer
    ensures { result ≡ told place answer }
{
    match answer {
        Ok(reply) => reply.into(),
        Err(Refusal { layer, reason }) => Answer::Refused {
            layer: layer.number(),
            number: reason.number(),
            place,
        },
    }
}
