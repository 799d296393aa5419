//! Ranks of paths: what a few of their bytes say of their order. Only speed rests on them.

use crate::triple::Triple;

/// The first bytes of a text, and zeros after its end.
fn window(text: &[u8]) -> [u8; 256] {
    let mut seen = [0; 256];
    let count = text.len().min(256);
    for index in 0..count {
        seen[index] = text[index];
    }
    seen
}

/// Marks the spots where two windows differ.
fn mark(seen: &[u8; 256], other: &[u8; 256], marks: &mut [u8; 256]) {
    for spot in 0..256 {
        marks[spot] |= seen[spot] ^ other[spot];
    }
}

/// The spots where the paths of triples differ, among the bytes after those that they share.
fn marks(triples: &[Triple], shared: usize) -> [u8; 256] {
    let mut marks = [0; 256];
    let Some(first) = triples.first() else {
        return marks;
    };
    let seen = window(first.past(shared));
    for triple in triples {
        mark(&seen, &window(triple.past(shared)), &mut marks);
    }
    marks
}

/// The first spots where paths differ.
#[derive(Drop)]
pub(crate) struct Spots {
    spots: [u8; 16],
    shared: usize,
}

impl Spots {
    pub(crate) fn of(triples: &[Triple], shared: usize) -> Spots {
        let marks = marks(triples, shared);
        let mut spots = [0; 16];
        let mut count = 0;
        for spot in 0..=255u8 {
            if marks[spot as usize] != 0 && count < 16 {
                spots[count] = spot;
                count += 1;
            }
        }
        Spots { spots, shared }
    }

    /// The bytes of a path at the spots, where the end comes before a slash, and a slash before all
    /// else.
    pub(crate) fn rank(&self, triple: &Triple) -> u128 {
        let seen = window(triple.past(self.shared));
        let mut rank = 0;
        for spot in self.spots {
            rank = rank << 8 | weight(seen[spot as usize]);
        }
        rank
    }
}

fn weight(byte: u8) -> u128 {
    if byte == b'/' { 1 } else { byte as u128 }
}
