ghost use Rattle.std.specs.Prelude.{◌≡◌, ◌+◌, ◌<◌};

use crate::tests::same::same;
use sim_draw::Draws;

// The next four words.
fn four_words(draws: &mut Draws) -> [u32; 4]
    requires { draws.old.taken < 100 }
    ensures { draws.new.taken ≡ draws.old.taken + 4 }
{
    [draws.word(), draws.word(), draws.word(), draws.word()]
}

#[test]
fn words_of_a_zero_key(rt: HostRuntime) {
    // ChaCha20 with a zero key: streams 0 and 1, and the second block (RFC 8439, A.1, vector 2).
    let mut first = Draws::new(0, 0);
    let words = four_words(&mut first);
    four_words(&mut first);
    four_words(&mut first);
    four_words(&mut first);
    let found = [words[0], words[1], first.word()];
    same(&rt, found, [0xade0b876, 0x903df1a0, 0xbee7079f]);
    same(&rt, first.taken(), 17);
    let mut second = Draws::new(0, 1);
    same(
        &rt,
        [second.word(), second.word()],
        [0xd6df3fef, 0xfb7815c6],
    );
}

#[test]
fn numbers_and_chances(rt: HostRuntime) {
    let mut draws = Draws::new(0, 0);
    same(
        &rt,
        [draws.uniform(1, 100), draws.uniform(1, 100)],
        [68, 57],
    );
    let mut draws = Draws::new(0, 0);
    same(&rt, [draws.chance(680), draws.chance(563)], [true, false]);
}

#[test]
fn a_number_between_equal_bounds_takes_no_word(rt: HostRuntime) {
    let mut draws = Draws::new(0, 0);
    let found = [
        (draws.between(7, 7), draws.taken()),
        (draws.between(1, 100), draws.taken()),
        (draws.uniform(5, 5), draws.taken()),
    ];
    same(&rt, found, [(7, 0), (68, 1), (5, 2)]);
}

#[test]
fn the_greatest_seed(rt: HostRuntime) {
    // ChaCha20 with the key of the bytes ff ff ff ff ff ff ff 7f and 24 zeros, stream 0 (by an
    // independent implementation).
    let mut draws = Draws::new(9223372036854775807, 0);
    same(&rt, [draws.word(), draws.word()], [0x5681e107, 0xc4789cfb]);
}
