// What a function gave: up to four numbers, signed ones in two's complement.
#[derive(Clone, Copy)]
pub struct Answer {
    pub values: [u64; 4],
    pub count: usize,
}

// What was given is not told in numbers.
pub fn untold() -> Answer {
    Answer {
        values: [0; 4],
        count: 0,
    }
}

pub fn one(x: u64) -> Answer {
    Answer {
        values: [x, 0, 0, 0],
        count: 1,
    }
}

pub fn two(x: u64, y: u64) -> Answer {
    Answer {
        values: [x, y, 0, 0],
        count: 2,
    }
}

pub fn three(x: u64, y: u64, z: u64) -> Answer {
    Answer {
        values: [x, y, z, 0],
        count: 3,
    }
}

pub fn four(x: u64, y: u64, z: u64, w: u64) -> Answer {
    Answer {
        values: [x, y, z, w],
        count: 4,
    }
}

// Whether the numbers of a line behind its sign are those of the answer.
pub fn agrees(a: Answer, values: [u64; 16], given: usize, count: usize) -> bool {
    let n = a.count;
    if 4 < n || 12 < given || count != given + n {
        return false;
    }
    a.values[..n] == values[given..count]
}
