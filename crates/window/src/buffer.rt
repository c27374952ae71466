// The window by value: each call takes it and gives it back.
ghost use Rattle.std.specs.Prelude.{◌≡◌, [], ◌∷◌, ◌++◌, ◌+◌, ◌%◌, length};
ghost use Rattle.window.specs.Answer.{get_answer_of, got_of};
ghost use Rattle.window.specs.Window.{items, last_three, ReplacesLast};

use crate::answer::Empty;
use endpoint::{EndpointData, blank};

// Three slots used in turn, the oldest endpoint in slot `start`. The contracts hold whatever `start`
// and `count` are, and speak of `items`: two windows with the same items are the same to callers.
// Slots with a start and a count, as lyon has them: a list of its own length would be on the heap.
#[derive(Clone, Copy)]
pub struct PointBuffer {
    points: [EndpointData; 3],
    start: usize,
    count: usize,
}

// `replace_last` gives the window back beside its answer.
#[derive(Clone, Copy)]
pub struct Replaced {
    pub change: Result<(), Empty>,
    pub window: PointBuffer,
}

// The slot that is i after `start`. Both are reduced first, so that the sum cannot wrap.
fn slot(start: usize, i: usize) -> usize
    ensures { result ≡ (start + i) % 3 }
{
    (start % 3 + i % 3) % 3
}

impl PointBuffer {
    #[tactic(auto, unfolding(crate::specs::Window::held))]
    pub fn new() -> PointBuffer
        ensures { items result ≡ [] }
    {
        PointBuffer {
            points: [blank(); 3],
            start: 0,
            count: 0,
        }
    }

    // A count above three means three.
    pub fn count(self) -> usize
        ensures { result ≡ length (items self) }
    {
        self.count.min(3)
    }

    // The oldest of three gives way: in a full window the slot after the newest is the oldest's.
    pub fn push(mut self, e: EndpointData) -> PointBuffer
        ensures { items result ≡ last_three (items self ++ (e ∷ [])) }
    {
        let n = self.count();
        let at = slot(self.start, n);
        self.points[at] = e;
        if n < 3 {
            self.count = n + 1;
        } else {
            self.start = slot(self.start, 1);
        }
        self
    }

    // In an empty window there is no last: it is refused, and the window stays as it is.
    pub fn replace_last(mut self, e: EndpointData) -> Replaced
        ensures { ReplacesLast self e result }
    {
        let n = self.count();
        if n == 0 {
            return Replaced {
                change: Err(Empty),
                window: self,
            };
        }
        let at = slot(self.start, n - 1);
        self.points[at] = e;
        Replaced {
            change: Ok(()),
            window: self,
        }
    }

    #[tactic(auto, unfolding(crate::specs::Window::held))]
    pub fn clear(self) -> PointBuffer
        ensures { items result ≡ [] }
    {
        PointBuffer {
            start: 0,
            count: 0,
            ..self
        }
    }

    // The endpoint that came i after the oldest.
    pub fn get(self, i: usize) -> Option<EndpointData>
        ensures { get_answer_of result ≡ got_of (items self) i }
    {
        if i < self.count() {
            return Some(self.points[slot(self.start, i)]);
        }
        None
    }
}
