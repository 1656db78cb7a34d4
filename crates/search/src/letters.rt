// Letters as the search reads them.
ghost use Rattle.std.specs.Prelude.{◌≡◌, ◌*◌, ◌≤◌, length};
ghost use Rattle.basics.specs.Limits.{operator_limit};
ghost use Rattle.search.specs.Limits.{letter_limit, map_size};
ghost use Rattle.search.specs.Maps.{Maps};

// So many letters, by number: the map of each, over so many operators, is kept for the first letter that has the same.
#[derive(Clone, Copy)]
pub struct Letters<'a> {
    pub maps: &'a [u8],
    pub firsts: &'a [u16],
    pub operators: usize,
    pub count: usize,
    ghost operators_few: { operators ≤ operator_limit },
    ghost maps_len: { length maps.now ≡ letter_limit * map_size },
    ghost firsts_len: { length firsts.now ≡ letter_limit },
    ghost count_few: { count ≤ letter_limit },
    ghost kept: { Maps operators count maps.now firsts.now },
}
