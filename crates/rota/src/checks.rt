// What a play asks besides of what a rota is lent in: room (2) for units, flags, draws and answers.
ghost use Rattle.std.specs.Prelude.{◌≡◌};
ghost use Rattle.rota.specs.Entries.{play_room_ok, columns_enough};

use paper::both;

// Rule 2 of units, flags and answers, and of the draws, of which there are enough or not.
pub(crate) fn play_room_ok(
    units: usize,
    count: usize,
    begins: &[u16],
    frozen: &[u64],
    answers: &[u8],
    enough: bool,
) -> bool
    ensures { result ≡ play_room_ok units begins.now frozen.now count enough answers.now }
{
    let lists = both(enough, count <= answers.len());
    both(
        units <= begins.len(),
        both(paper::SET_WORDS <= frozen.len(), lists),
    )
}

// Whether three columns have enough draws.
pub(crate) fn columns_enough(count: usize, draws: &[u16], firsts: &[u16], seconds: &[u16]) -> bool
    ensures { result ≡ columns_enough count draws.now firsts.now seconds.now }
{
    both(
        count <= draws.len(),
        both(count <= firsts.len(), count <= seconds.len()),
    )
}
