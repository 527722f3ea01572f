//! Cases on comparing: `open AREA NUMBER`, which names an area for the cases after it, and calls
//! on it. A claim stays in its place, by number, for the cases after the one that gave it:
//! `take AREA PLACE FIRST SECOND`, `oust AREA PLACE FIRST SECOND`,
//! `step AREA NUMBER SERIAL FIRST SECOND STEPS PAIRS`, `conclude AREA PLACE`,
//! `trail AREA PLACE LENGTH`, `giveup AREA PLACE`, and the case on documents.
use crate::claims::spend;
use crate::documents::Document;
use crate::reply::Reply;
use crate::trees::{AskedOfTwo, Schemas};
use crate::trims::{FILLING, is_as_found};
use api::{
    ApartClaim, Area, Claim, Concluded, Domain, Lease, Numbers, Refusal, RowPair, Schema, Verdict,
    conclude, give_up, open, oust, step, take, trail,
};
use notation::answers::Finding;
use notation::memory::{SEARCH_PAIR, filled};
use notation::trouble::Trouble;
use notation::words::{Words, digits};
use std::alloc::Global;
use std::collections::BTreeMap;
use std::mem;

/// How many claims there can be at a time.
const PLACES: usize = 4;

/// What a place holds.
enum Held {
    Nothing,
    Comparing(Claim),
    Apart(ApartClaim),
}

impl Held {
    /// Spends the claim that is held, whatever it is.
    fn spend(self) {
        match self {
            Held::Nothing => {}
            Held::Comparing(claim) => spend(claim),
            Held::Apart(claim) => spend(claim),
        }
    }
}

/// How a comparison begins.
#[derive(Clone, Copy, Debug, PartialEq, Eq)]
pub enum Begin {
    Take,
    Oust,
}

impl AskedOfTwo for Begin {
    type Outcome = Claim;

    fn put<D: Domain>(
        self,
        area: &mut Area,
        first: &Schema<D>,
        second: &Schema<D>,
    ) -> Result<Claim, Refusal> {
        match self {
            Begin::Take => take(area, first, second),
            Begin::Oust => oust(area, first, second),
        }
    }
}

/// A step of the claim with these numbers, and the row pairs that it is lent.
#[derive(Drop)]
struct Step {
    claim: Numbers,
    steps: u32,
    scratch: Vec<RowPair>,
}

impl AskedOfTwo for Step {
    type Outcome = (u32, u32);

    fn put<D: Domain>(
        mut self,
        area: &mut Area,
        first: &Schema<D>,
        second: &Schema<D>,
    ) -> Result<(u32, u32), Refusal> {
        let scratch = self.scratch.as_mut_slice();
        step(area, self.claim, first, second, self.steps, scratch)
    }
}

/// The areas that the cases so far named, each the last of its name, and the claims that they were
/// given, by place.
pub struct Areas {
    areas: BTreeMap<String, Area>,
    places: [Held; PLACES],
}

/// The area that was last given the name of the next word.
fn area_of<'a, 'b>(
    areas: &'b mut BTreeMap<String, Area>,
    words: &mut Words<'a>,
) -> Result<&'b mut Area, Trouble<'a>> {
    let name = words.word()?;
    areas.get_mut(name).ok_or(Trouble::Unreadable(name))
}

/// The numbers of a claim that the next two words tell.
fn claim_of<'a>(words: &mut Words<'a>) -> Result<Numbers, Trouble<'a>> {
    Ok(Numbers {
        area: words.number()?,
        serial: words.number()?,
    })
}

/// The place that the next word says, with the word.
fn place_of<'a, 'b>(
    places: &'b mut [Held],
    words: &mut Words<'a>,
) -> Result<(&'a str, &'b mut Held), Trouble<'a>> {
    let word = words.word()?;
    let place = digits(word).ok_or(Trouble::Unreadable(word))?;
    let held = places
        .get_mut(place as usize)
        .ok_or(Trouble::Unreadable(word))?;
    Ok((word, held))
}

/// Puts a claim in a place. One that is there is spent.
fn put(place: &mut Held, held: Held) {
    mem::replace(place, held).spend();
}

/// Concludes, and gives what is left for the place.
fn concluded(area: &mut Area, claim: Claim) -> (Reply, Held) {
    match conclude(area, claim) {
        Err((refusal, claim)) => (
            Reply::Returned(refusal, claim.numbers()),
            Held::Comparing(claim),
        ),
        Ok(Concluded::Included(examined)) => {
            let verdict = Verdict::Included;
            (
                Reply::Included(Finding { verdict, examined }),
                Held::Nothing,
            )
        }
        Ok(Concluded::Apart(kind, examined, claim)) => {
            let verdict = Verdict::Apart(kind);
            (
                Reply::Apart(Finding { verdict, examined }, claim.numbers()),
                Held::Apart(claim),
            )
        }
    }
}

/// Asks for a trail.
fn trailed(area: &Area, claim: ApartClaim, mut output: Vec<u8>) -> (Reply, ApartClaim) {
    match trail(area, claim, output.as_mut_slice()) {
        Ok((length, claim)) => (Reply::Trailed(length, output, claim.numbers()), claim),
        Err((refusal, claim)) => {
            let answer = Reply::Untrailed {
                refusal,
                claim: claim.numbers(),
                as_found: is_as_found(output.as_slice()),
            };
            (answer, claim)
        }
    }
}

/// Gives a claim up; one that is handed back comes with the answer.
fn given_up<S>(area: &mut Area, claim: Lease<S>) -> (Reply, Option<Lease<S>>) {
    match give_up(area, claim) {
        Ok(answer) => (Reply::GivenUp(answer), None),
        Err((refusal, claim)) => (Reply::Returned(refusal, claim.numbers()), Some(claim)),
    }
}

impl Areas {
    /// No areas, and no claim in any place.
    pub fn new(heap: Global) -> Areas {
        Areas {
            areas: BTreeMap::new(heap),
            places: [Held::Nothing, Held::Nothing, Held::Nothing, Held::Nothing],
        }
    }

    /// Spends the claims that are left.
    pub fn clear(self) {
        let Areas { areas: _, places } = self;
        let [first, second, third, fourth] = places;
        first.spend();
        second.spend();
        third.spend();
        fourth.spend();
    }

    /// Opens an area under a name.
    pub fn open<'a>(&mut self, words: &mut Words<'a>) -> Result<Reply, Trouble<'a>> {
        let name = String::from_str(words.heap, words.word()?)?;
        let number = words.number()?;
        words.end()?;
        self.areas.insert(name, open(number))?;
        Ok(Reply::Opened)
    }

    /// Takes or ousts an area, and puts the claim in its place.
    pub fn begin<'a>(
        &mut self,
        schemas: &Schemas,
        begin: Begin,
        words: &mut Words<'a>,
    ) -> Result<Reply, Trouble<'a>> {
        let area = area_of(&mut self.areas, words)?;
        let (_, place) = place_of(&mut self.places, words)?;
        let two = schemas.two(words)?;
        words.end()?;
        let claim = two.put(begin, area)?;
        let numbers = claim.numbers();
        put(place, Held::Comparing(claim));
        Ok(Reply::Begun(numbers))
    }

    /// A step of the claim that the words tell.
    pub fn step<'a>(
        &mut self,
        schemas: &Schemas,
        words: &mut Words<'a>,
    ) -> Result<Reply, Trouble<'a>> {
        let area = area_of(&mut self.areas, words)?;
        let claim = claim_of(words)?;
        let two = schemas.two(words)?;
        let steps = words.number()?;
        let scratch = filled(words.heap, words.number()? as usize, SEARCH_PAIR)?;
        words.end()?;
        let step = Step {
            claim,
            steps,
            scratch,
        };
        let (examined, mark) = two.put(step, area)?;
        Ok(Reply::Stepped(examined, mark))
    }

    /// Concludes the comparison of the claim in a place.
    pub fn conclude<'a>(&mut self, words: &mut Words<'a>) -> Result<Reply, Trouble<'a>> {
        let area = area_of(&mut self.areas, words)?;
        let (word, place) = place_of(&mut self.places, words)?;
        words.end()?;
        match mem::replace(place, Held::Nothing) {
            Held::Comparing(claim) => {
                let (answer, held) = concluded(area, claim);
                put(place, held);
                Ok(answer)
            }
            other => {
                put(place, other);
                Err(Trouble::Unreadable(word))
            }
        }
    }

    /// The trail of the apart claim in a place, into an output of a length.
    pub fn trail<'a>(&mut self, words: &mut Words<'a>) -> Result<Reply, Trouble<'a>> {
        let area = area_of(&mut self.areas, words)?;
        let (word, place) = place_of(&mut self.places, words)?;
        let output = filled(words.heap, words.number()? as usize, FILLING)?;
        words.end()?;
        match mem::replace(place, Held::Nothing) {
            Held::Apart(claim) => {
                let (answer, claim) = trailed(area, claim, output);
                put(place, Held::Apart(claim));
                Ok(answer)
            }
            other => {
                put(place, other);
                Err(Trouble::Unreadable(word))
            }
        }
    }

    /// The document of the claim that the words tell.
    pub fn document<'a>(
        &mut self,
        schemas: &Schemas,
        words: &mut Words<'a>,
    ) -> Result<Reply, Trouble<'a>> {
        let area = area_of(&mut self.areas, words)?;
        let claim = claim_of(words)?;
        let two = schemas.two(words)?;
        let document = Document::read(words, claim)?;
        words.end()?;
        Ok(two.put(document, area)?)
    }

    /// Gives the claim in a place up.
    pub fn give_up<'a>(&mut self, words: &mut Words<'a>) -> Result<Reply, Trouble<'a>> {
        let area = area_of(&mut self.areas, words)?;
        let (word, place) = place_of(&mut self.places, words)?;
        words.end()?;
        match mem::replace(place, Held::Nothing) {
            Held::Nothing => Err(Trouble::Unreadable(word)),
            Held::Comparing(claim) => {
                let (answer, left) = given_up(area, claim);
                if let Some(claim) = left {
                    put(place, Held::Comparing(claim));
                }
                Ok(answer)
            }
            Held::Apart(claim) => {
                let (answer, left) = given_up(area, claim);
                if let Some(claim) = left {
                    put(place, Held::Apart(claim));
                }
                Ok(answer)
            }
        }
    }
}
