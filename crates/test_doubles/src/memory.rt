//! A machine without memory, or with memory for some requests alone.

use std::alloc::{AllocError, Global};

/// Takes memory until no request is granted. To drop what it answers gives all back.
pub fn hoard(alloc: Global) -> Result<Vec<Vec<u8>>, AllocError> {
    let held = Vec::with_capacity(alloc, 200_000)?;
    Ok(all_taken(alloc, held, 0x4000_0000_0000))
}

/// Takes all memory but a little, of which the rest of a test makes do.
pub fn hoard_most(alloc: Global) -> Result<Vec<Vec<u8>>, AllocError> {
    let little = Vec::<u8>::with_capacity(alloc, 0x100_0000)?;
    let held = hoard(alloc)?;
    drop(little);
    Ok(held)
}

/// Takes all memory but one block of so many bytes, while all but a little is taken already.
pub fn hoard_rest(alloc: Global, bytes: usize) -> Result<Vec<Vec<u8>>, AllocError> {
    let block = Vec::<u8>::with_capacity(alloc, bytes)?;
    let rest = rest_taken(alloc)?;
    drop(block);
    Ok(rest)
}

// Takes all memory while all but a little is taken already.
fn rest_taken(alloc: Global) -> Result<Vec<Vec<u8>>, AllocError> {
    let held = Vec::with_capacity(alloc, 4_000)?;
    Ok(all_taken(alloc, held, 0x1000_0000))
}

// Takes blocks of this size and of each that is half as large, until none is granted.
fn all_taken(alloc: Global, mut held: Vec<Vec<u8>>, most: usize) -> Vec<Vec<u8>> {
    let mut size = most;
    for _ in 0..47 {
        take_all(alloc, &mut held, size);
        size = size / 2 + 1;
    }
    // What was given back before may be kept for requests of just its size.
    for kind in 0..KINDS {
        take_all(alloc, &mut held, size_of_kind(kind));
    }
    held
}

// Takes blocks of this size until one is refused.
fn take_all(alloc: Global, held: &mut Vec<Vec<u8>>, size: usize) {
    for _ in 0..60_000 {
        if take(alloc, held, size).is_err() {
            return;
        }
    }
}

// Takes a block of this size.
fn take(alloc: Global, held: &mut Vec<Vec<u8>>, size: usize) -> Result<(), AllocError> {
    let block = Vec::with_capacity(alloc, size)?;
    held.push(block)?;
    Ok(())
}

// Gives the block in this place back.
fn give_back(alloc: Global, blocks: &mut Vec<Vec<u8>>, place: usize) {
    if let Some(block) = blocks.get_mut(place) {
        *block = Vec::new(alloc);
    }
}

// How many kinds of small blocks there are. What was given back of a kind is granted to requests of that kind
// alone, and to so many of them.
const KINDS: usize = 64;

const PLENTY: usize = 6;

// The largest request for a block of this kind.
fn size_of_kind(kind: usize) -> usize {
    kind.saturating_mul(16).saturating_add(24)
}

/// A request for memory, by what comes before it: the acts, and in its own act the requests for blocks of the
/// same kind. `KINDS` stands for each block that would be made larger in the act.
#[derive(Clone, Copy)]
pub struct Request {
    act: usize,
    kind: usize,
    before: usize,
}

/// Memory for one act after another, of which one request is refused, if any.
///
/// It has to be made while all memory but a little is taken.
#[derive(Drop)]
pub struct Rations {
    alloc: Global,
    refused: Option<Request>,
    acts: usize,
    requests: Vec<Request>,
}

impl Request {
    /// Each request of this act to make a block larger. No other is refused.
    pub fn to_grow(act: usize) -> Request {
        Request {
            act,
            kind: KINDS,
            before: 0,
        }
    }
}

/// What is held back during an act.
#[derive(Drop)]
pub struct Held {
    rest: Vec<Vec<u8>>,
    blocks: Vec<Vec<u8>>,
    // How many requests for a block of each kind are granted.
    granted: [usize; KINDS],
}

impl Held {
    // How many requests of each kind were granted. What is left of them is taken.
    fn used(&mut self, alloc: Global) -> [usize; KINDS] {
        let mut used = self.granted;
        for (kind, used) in used.iter_mut().enumerate() {
            let before = self.blocks.len();
            take_all(alloc, &mut self.blocks, size_of_kind(kind));
            *used = used.saturating_sub(self.blocks.len().saturating_sub(before));
        }
        used
    }
}

impl Rations {
    /// All requests are granted, and noted.
    pub fn noting(alloc: Global) -> Rations {
        Rations {
            alloc,
            refused: None,
            acts: 0,
            requests: Vec::new(alloc),
        }
    }

    /// This request is refused.
    pub fn refusing(alloc: Global, request: Request) -> Rations {
        Rations {
            alloc,
            refused: Some(request),
            acts: 0,
            requests: Vec::new(alloc),
        }
    }

    /// How many acts there were.
    pub fn acts(&self) -> usize {
        self.acts
    }

    /// The requests that were noted.
    pub fn requests(&self) -> &[Request] {
        self.requests.as_slice()
    }

    /// Begins an act. What is held back then is given back at its end.
    pub fn begin(&mut self) -> Result<Option<Held>, AllocError> {
        match self.refused {
            Some(request) if request.act != self.acts => return Ok(None),
            _ => {}
        }
        let mut blocks = self.plenty()?;
        let rest = rest_taken(self.alloc)?;
        blocks.clear();
        let granted = self.grant(&mut blocks);
        Ok(Some(Held {
            rest,
            blocks,
            granted,
        }))
    }

    // Plenty of blocks of each kind, and room for as many more.
    fn plenty(&self) -> Result<Vec<Vec<u8>>, AllocError> {
        let mut blocks = Vec::with_capacity(self.alloc, 3 * KINDS * PLENTY)?;
        for place in 0..KINDS * PLENTY {
            take(self.alloc, &mut blocks, size_of_kind(place / PLENTY))?;
        }
        Ok(blocks)
    }

    // Grants requests for blocks of each kind, and takes what else there is of it: how many are granted of each.
    // A block may be larger than was asked for, and is of another kind then. So they are counted as they are found.
    fn grant(&self, blocks: &mut Vec<Vec<u8>>) -> [usize; KINDS] {
        let mut granted = [0usize; KINDS];
        for (kind, granted) in granted.iter_mut().enumerate() {
            let before = blocks.len();
            take_all(self.alloc, blocks, size_of_kind(kind));
            let found = blocks.len().saturating_sub(before);
            *granted = found.min(self.granted(kind));
            for place in 0..*granted {
                give_back(self.alloc, blocks, before.saturating_add(place));
            }
        }
        granted
    }

    // How many requests for a block of this kind are granted in this act at most.
    fn granted(&self, kind: usize) -> usize {
        match self.refused {
            Some(request) if request.kind == kind => request.before,
            _ => PLENTY,
        }
    }

    /// Ends an act.
    pub fn end(&mut self, held: Option<Held>) -> Result<(), AllocError> {
        let act = self.acts;
        self.acts = act.saturating_add(1);
        let Some(mut held) = held else {
            return Ok(());
        };
        let used = held.used(self.alloc);
        drop(held);
        match self.refused {
            None => self.note(act, used),
            Some(_) => Ok(()),
        }
    }

    // Notes the requests of an act, of which there were so many of each kind.
    fn note(&mut self, act: usize, used: [usize; KINDS]) -> Result<(), AllocError> {
        for (kind, used) in used.into_iter().enumerate() {
            for before in 0..used {
                self.requests.push(Request { act, kind, before })?;
            }
        }
        Ok(())
    }
}
