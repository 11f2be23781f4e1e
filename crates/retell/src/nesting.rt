// How deep a place is in what opens and closes, and where that was opened in which it stands; of a text or of a stream.

// What a place does.
#[derive(Clone, Copy)]
pub enum Turn {
    Opens,
    Closes,
    Neither,
}

impl Turn {
    // Where so many are open before it: how many are after it.
    fn after(self, open: usize) -> usize {
        match self {
            Turn::Opens => open.saturating_add(1),
            Turn::Closes => open.saturating_sub(1),
            Turn::Neither => open,
        }
    }
}

// How many are open at a place.
pub fn depth<F: Fn(usize) -> Turn>(place: usize, turn_at: F) -> usize
    requires { F.IsAlwaysCallable turn_at }
{
    let mut open = 0;
    for at in 0..place {
        open = turn_at(at).after(open);
    }
    open
}

// Where the one was opened that is open at a place: the last with one fewer open before it.
pub fn opened<F: Fn(usize) -> Turn>(place: usize, turn_at: F) -> Option<usize>
    requires { F.IsAlwaysCallable turn_at }
{
    let level = depth(place, &turn_at);
    let mut found = None;
    let mut open = 0;
    for at in 0..place {
        let after = turn_at(at).after(open);
        if after == level && open < after {
            found = Some(at);
        }
        open = after;
    }
    found
}
