// Marsaglia's xorwow: a generator of numbers of 32 bits that anyone can run again.
#![tactic(auto)]

ghost use Rattle.std.specs.Prelude.{◌≡◌};
ghost use Rattle.generator.specs.Xorwow.{drawn, after};
ghost use Rattle.generator.specs.Claims.{Draws};

// The generator's state.
#[derive(Clone, Copy)]
pub struct Generator {
    pub x: u32,
    pub y: u32,
    pub z: u32,
    pub w: u32,
    pub v: u32,
    pub d: u32,
}

// The number drawn, and the state after it.
#[derive(Clone, Copy)]
pub struct Drawn {
    pub value: u32,
    pub next: Generator,
}

// One draw.
pub fn draw(g: Generator) -> Drawn
    ensures { result ≡ drawn g }
{
    let t = g.x ^ (g.x >> 2);
    let v = (g.v ^ (g.v << 4)) ^ (t ^ (t << 1));
    let d = g.d.wrapping_add(362437);
    let value = d.wrapping_add(v);
    let next = Generator {
        x: g.y,
        y: g.z,
        z: g.w,
        w: g.v,
        v,
        d,
    };
    Drawn { value, next }
}

// The state after so many draws, which are thrown away.
pub fn after_draws(count: u32) -> Generator
    ensures { result ≡ after count }
{
    let mut g = Generator {
        x: 123456789,
        y: 362436069,
        z: 521288629,
        w: 88675123,
        v: 5783321,
        d: 6615241,
    };
    for _ in 0..count {
        g = draw(g).next;
    }
    g
}

// Does nothing. Its contract has what is claimed of the generator, so that none of it can be dropped unseen.
pub fn draws_hold()
    ensures { Draws }
{}
