// A triangle of an index list.
ghost use Rattle.std.specs.Prelude.{◌≡◌, ◌/◌, ◌<◌, length};
ghost use Rattle.std.specs.Int.{from_bool};
ghost use Rattle.triangles.specs.Facts.{in_tri, shared};
ghost use Rattle.inspect.specs.Faults.{triangle_at, two_alike_in};
ghost use Rattle.inspect.specs.Three.{tri_of};

// The numbers of its vertices.
#[derive(Clone, Copy)]
pub(crate) struct Three {
    pub a: u32,
    pub b: u32,
    pub c: u32,
}

#[tactic(auto, unfolding(crate::specs::Faults::triangle_at))]
pub(crate) fn triangle_at(list: &[u32], t: usize) -> Three
    requires { t < length list.now / 3 }
    ensures { tri_of result ≡ triangle_at list.now t }
{
    Three {
        a: list[3 * t],
        b: list[3 * t + 1],
        c: list[3 * t + 2],
    }
}

// Whether it names a vertex twice.
#[tactic(auto, unfolding(crate::specs::Faults::two_alike_in))]
pub(crate) fn two_alike(t: Three) -> bool
    ensures { result ≡ two_alike_in (tri_of t) }
{
    t.a == t.b || t.b == t.c || t.a == t.c
}

// How many of u's vertices are t's.
#[tactic(auto, unfolding(triangles::specs::Facts::shared))]
pub(crate) fn shared(t: Three, u: Three) -> u32
    ensures { result ≡ shared (tri_of t) (tri_of u) }
{
    u32::from(has(t, u.a)) + u32::from(has(t, u.b)) + u32::from(has(t, u.c))
}

// Whether x is one of its vertices.
#[tactic(auto, unfolding(triangles::specs::Facts::in_tri))]
fn has(t: Three, x: u32) -> bool
    ensures { from_bool result ≡ in_tri (tri_of t) x }
{
    t.a == x || t.b == x || t.c == x
}
