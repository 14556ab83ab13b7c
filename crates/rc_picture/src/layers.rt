//! The layers of a picture, from the ground up.

use self::Layer::*;

/// A layer.
#[derive(Clone, Copy)]
pub enum Layer {
    Bg,
    Band,
    Faultband,
    Grid,
    Axis,
    Order,
    Taken,
    Lock,
    Open,
    Queued,
    Completed,
    Tail,
    Pending,
    Pool,
    Full,
    Cap,
    Dot,
    Load,
    Touch,
    Gap,
    Halo,
    Link,
    Hit,
    Hitload,
    Text,
    Dim,
    Bold,
    Red,
    Small,
    Smallbold,
    Smallred,
}

/// A colour on a light ground, and on a dark one.
#[derive(Clone, Copy)]
pub struct Colour(pub &'static [u8], pub &'static [u8]);

const GROUND: Option<Colour> = Some(Colour(b"#ffffff", b"#0d1117"));

const TEXT: Option<Colour> = Some(Colour(b"#1f2328", b"#e6edf3"));

const DIM: Option<Colour> = Some(Colour(b"#59636e", b"#9198a1"));

const GRID: Option<Colour> = Some(Colour(b"#d1d9e0", b"#30363d"));

const BAND: Option<Colour> = Some(Colour(b"#f3f5f7", b"#161b22"));

const AXIS: Option<Colour> = Some(Colour(b"#818b98", b"#6e7681"));

const LOCK: Option<Colour> = Some(Colour(b"#ffdf80", b"#5c4500"));

const LOCK_LINE: Option<Colour> = Some(Colour(b"#8a6100", b"#e3b341"));

const QUEUED: Option<Colour> = Some(Colour(b"#c8e1ff", b"#0c2d57"));

const QUEUED_LINE: Option<Colour> = Some(Colour(b"#0b5cad", b"#79b8ff"));

const PENDING: Option<Colour> = Some(Colour(b"#0b5cad", b"#58a6ff"));

const COMPLETED: Option<Colour> = Some(Colour(b"#d5f2dc", b"#0f3d1d"));

const COMPLETED_LINE: Option<Colour> = Some(Colour(b"#1a7f37", b"#56d364"));

const POOL: Option<Colour> = Some(Colour(b"#d9c8f5", b"#3c2a66"));

const POOL_LINE: Option<Colour> = Some(Colour(b"#6639ba", b"#bc9cff"));

const FAULT: Option<Colour> = Some(Colour(b"#cf222e", b"#ff7b72"));

const FAULT_BAND: Option<Colour> = Some(Colour(b"#ffe7e5", b"#3d1518"));

const CRISP: &[u8] = b" shape-rendering=\"crispEdges\"";

const DASHED: &[u8] = b" stroke-dasharray=\"3 2\"";

const WEIGHT: &[u8] = b" font-weight=\"bold\"";

const SIZE: &[u8] = b" font-size=\"9.8\"";

const BOTH: &[u8] = b" font-size=\"9.8\" font-weight=\"bold\"";

/// How the elements of a layer are drawn: the layer's name, what they are filled with, what their lines are drawn in and
/// how wide, and what else is said of them.
pub type Style = (
    &'static [u8],
    Option<Colour>,
    Option<Colour>,
    &'static [u8],
    &'static [u8],
);

impl Layer {
    /// All layers, in the order in which they are drawn, which is that of their numbers.
    pub const ALL: [Layer; 31] = [
        Bg, Band, Faultband, Grid, Axis, Order, Taken, Lock, Open, Queued, Completed, Tail,
        Pending, Pool, Full, Cap, Dot, Load, Touch, Gap, Halo, Link, Hit, Hitload, Text, Dim, Bold,
        Red, Small, Smallbold, Smallred,
    ];

    /// How its elements are drawn.
    pub fn style(self) -> Style {
        match self {
            Bg => (b"bg", GROUND, None, b"", b""),
            Band => (b"band", BAND, None, b"", b""),
            Faultband => (b"faultband", FAULT_BAND, None, b"", b""),
            Grid => (b"grid", None, GRID, b"1", CRISP),
            Axis => (b"axis", None, AXIS, b"1", CRISP),
            Order => (b"order", None, AXIS, b"1", b""),
            Taken => (b"taken", None, PENDING, b"5", b""),
            Lock => (b"lock", LOCK, LOCK_LINE, b"1", b""),
            Open => (b"open", GROUND, DIM, b"1", DASHED),
            Queued => (b"queued", QUEUED, QUEUED_LINE, b"1", b""),
            Completed => (b"completed", COMPLETED, COMPLETED_LINE, b"1", b""),
            Tail => (b"tail", COMPLETED_LINE, None, b"", b""),
            Pending => (b"pending", PENDING, PENDING, b"1", b""),
            Pool => (b"pool", POOL, POOL_LINE, b"1", b""),
            Full => (b"full", None, TEXT, b"3", b""),
            Cap => (b"cap", None, TEXT, b"1.5", b""),
            Dot => (b"dot", TEXT, GROUND, b"1", b""),
            Load => (b"load", GROUND, TEXT, b"1.5", b""),
            Touch => (b"touch", TEXT, GROUND, b"1", b""),
            Gap => (b"gap", None, GROUND, b"6", b""),
            Halo => (b"halo", None, GROUND, b"6", b""),
            Link => (b"link", None, FAULT, b"2", b""),
            Hit => (b"hit", FAULT, GROUND, b"1", b""),
            Hitload => (b"hitload", GROUND, FAULT, b"2", b""),
            Text => (b"text", TEXT, None, b"", b""),
            Dim => (b"dim", DIM, None, b"", b""),
            Bold => (b"bold", TEXT, None, b"", WEIGHT),
            Red => (b"red", FAULT, None, b"", WEIGHT),
            Small => (b"small", TEXT, None, b"", SIZE),
            Smallbold => (b"smallbold", TEXT, None, b"", BOTH),
            Smallred => (b"smallred", FAULT, None, b"", BOTH),
        }
    }
}
