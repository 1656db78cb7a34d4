// Lists in fixed memory: texts that are drawn, and what is found one after another, as states, beliefs and rows are.
ghost use Rattle.std.specs.Prelude.{◌≡◌, ◌+◌, ◌<◌, ◌≤◌, IfSome, IfNone};

// Items one behind another, as many as `count` says. Where there are N, there is no room for more.
#[derive(Drop)]
pub struct List<T, const N: usize> {
    pub items: [T; N],
    pub count: usize,
    ghost within: { count ≤ N },
}

impl<T: Copy + PartialEq, const N: usize> List<T, N> {
    pub(crate) fn as_slice(&self) -> &[T] {
        &self.items[..self.count]
    }

    // Puts an item behind the others, and answers its place; none where there is no room.
    pub(crate) fn push(&mut self, item: T) -> Option<usize>
        ensures put { IfSome result (λ i. (i < N) × (i ≡ self.old.count) × (self.new.count ≡ i + 1)) }
        ensures kept { IfNone result (self.new.count ≡ self.old.count) }
    {
        let n = self.count;
        if n == N {
            return None;
        }
        self.items[n] = item;
        self.count = n + 1;
        Some(n)
    }

    // Puts as many of some items behind the others as there is room for.
    pub(crate) fn append(&mut self, items: &[T])
        ensures { self.old.count ≤ self.new.count }
    {
        for &item in items {
            let _ = self.push(item);
        }
    }

    // The first place of an item, which is put behind the others where it is new; none where there is no room for it.
    pub(crate) fn place_of(&mut self, item: T) -> Option<usize>
        ensures place { IfSome result (λ i. (i < N) × (i ≤ self.old.count)) }
        ensures kept { self.old.count ≤ self.new.count }
    {
        for i in 0..self.count {
            if self.items[i] == item {
                return Some(i);
            }
        }
        self.push(item)
    }
}
