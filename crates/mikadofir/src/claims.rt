//! Claims that are given up whatever comes of it.
use api::{Area, Lease, Refusal, give_up, open};

/// Gives a claim up where it can't be refused: on a free area of its own number.
fn spend<S>(claim: Lease<S>) {
    match give_up(&mut open(claim.number()), claim) {
        Ok(_) => {}
        Err(_) => unreachable!(),
    }
}

/// Gives a claim up. One of another area is refused here, and spent all the same.
pub fn given_up<S>(area: &mut Area, claim: Lease<S>) -> Result<u32, Refusal> {
    match give_up(area, claim) {
        Ok(answer) => Ok(answer),
        Err((refusal, claim)) => {
            spend(claim);
            Err(refusal)
        }
    }
}
