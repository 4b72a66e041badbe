// A stack over a lent slice.
ghost use Rattle.std.specs.Prelude.{◌≤◌, length};

#[derive(Drop)]
pub struct Stack<'a, T> {
    items: &'a mut [T],
    len: usize,
    pub ghost whole: { len ≤ length items.now },
}

impl<'a, T: Copy> Stack<'a, T> {
    ghost use Rattle.std.specs.Prelude.{◌≡◌, ℕ, ◌+◌, ◌-◌, ◌<◌, [], ◌∷◌, ◌++◌, if◌then◌else◌, nat_lt};
    ghost use Rattle.plant.specs.Held.{held, room, Popped};

    pub fn new(items: &'a mut [T]) -> Stack<'a, T>
        ensures held { held result ≡ [] }
        ensures room { room result ≡ length items.old }
    {
        Stack { items, len: 0 }
    }

    // Whether there was room; `x` is on top then.
    pub fn push(&mut self, x: T) -> bool
        ensures pushed { result ≡ nat_lt (length (held self.old)) (room self.old) }
        ensures held { held self.new ≡ (if result then held self.old ++ x ∷ [] else held self.old) }
        ensures room { room self.new ≡ room self.old }
    {
        if self.len >= self.items.len() {
            return false;
        }
        self.items[self.len] = x;
        self.len += 1;
        true
    }

    pub fn pop(&mut self) -> Option<T>
        ensures popped { Popped result (held self.old) (held self.new) }
        ensures room { room self.new ≡ room self.old }
    {
        if self.len == 0 {
            return None;
        }
        self.len -= 1;
        Some(self.items[self.len])
    }
}
