// What changes a rota: a single assign, the five moves, and a play of many draws.
#![tactic(auto)]

pub mod assignment;
mod checks;
pub mod draws;
mod moves;
pub mod play;
pub mod replay;

// One of a list of people: nobody is on it, the choice lies beyond it, or this person.
#[derive(Clone, Copy)]
enum Pick {
    Nobody,
    Beyond,
    Person(u8),
}

// What a draw does. Stay answers 1 or 2; a stretch of slots goes from its first up to, without, its end.
#[derive(Clone, Copy)]
enum Move {
    Stay(u8),
    Give {
        from: usize,
        upto: usize,
        to: u8,
    },
    Trade {
        from: usize,
        upto: usize,
        to: u8,
        from2: usize,
        upto2: usize,
        to2: u8,
    },
}
