// Points of the 1280 × 1024 × 8 screen. The definitions are specs/Screen.antt.
ghost use Rattle.std.specs.Prelude.{◌≡◌};
ghost use Rattle.layout.specs.Screen.{point_bank, point_page, on_screen, point_at, point_given, pointed_given};

use super::Point;
use super::memory::pages_fit;
use numbers::Refusal;

pub const WIDTH: u32 = 1280;

pub const HEIGHT: u32 = 1024;

// The bank that the point lies in.
fn bank_of(x: u32, y: u32) -> u32
    ensures { result ≡ point_bank x y }
{
    2 * (y % 32 / 16) + x % 160 / 80
}

// The page that the point lies in.
fn page_of(x: u32, y: u32) -> u32
    ensures { result ≡ point_page x y }
{
    8 * (y / 32) + x / 160
}

// Whether the point is inside the screen and its page below P.
fn on_screen(pages: u32, x: u32, y: u32) -> bool
    ensures { result ≡ on_screen pages x y }
{
    (x < WIDTH) & (y < HEIGHT) & (page_of(x, y) < pages)
}

// Where the point lies, whether on screen or not.
fn place_of(x: u32, y: u32) -> Point
    ensures { result ≡ point_at x y }
{
    Point {
        bank: bank_of(x, y),
        page: page_of(x, y),
        line: y % 16,
        column: x % 80,
    }
}

// The screen point (x, y), in a memory of so many pages to a bank. P is tested first.
pub fn point(pages: u32, x: u32, y: u32) -> Result<Point, Refusal>
    ensures { pointed_given result ≡ point_given pages x y }
{
    if !pages_fit(pages) {
        return Err(Refusal::OperandOutside);
    }
    if !on_screen(pages, x, y) {
        return Err(Refusal::OffScreen);
    }
    Ok(place_of(x, y))
}
