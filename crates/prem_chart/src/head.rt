// The head of a picture: its size, how all looks, what the run counted, and the keys to its colours.
ghost use Rattle.std.specs.Prelude.{◌≡◌, ◌++◌, ◌≤◌, IfOk, OnOk, string_bytes};
ghost use Rattle.prem_chart.specs.Head.{bus_text, cache_text, device_key, key_name, key_text, key_x, key_y, keys_text, paper_text, phase_text, size_text, style_text, time_text, title_text};

use crate::placing::height_of;
use crate::text::push_escaped;
use crate::view::Canvas;
use std::alloc::{AllocError, Global};

/// How all looks. The colours are told apart by those who don't see all of them: after Okabe and Ito.
pub const STYLE: &str =
    "<style>text{font-family:Inter,Segoe UI,Helvetica Neue,DejaVu Sans,Arial,sans-serif;fill:#1b2430}\
.title{font-size:190px;font-weight:700}.counts{font-size:130px;fill:#5b6675}.key{font-size:120px}\
.name{font-size:140px;font-weight:600;text-anchor:end}.every{font-size:110px;text-anchor:end;fill:#5b6675}\
.cycles{font-size:115px;font-weight:600;text-anchor:middle}.axis{font-size:115px;text-anchor:middle;fill:#5b6675}\
.grid{stroke:#e6eaf0;stroke-width:10}.base{stroke:#c9d0da;stroke-width:10}rect{stroke-width:8}\
.compatible{fill:#c6ccd6;stroke:#98a2b3}.predictable{fill:#f0ad2c;stroke:#f0ad2c}.execution{fill:#6bb6ea;stroke:#6bb6ea}\
.d0{fill:#00866a;stroke:#00866a}.d1{fill:#cc6699;stroke:#cc6699}.d2{fill:#c44e00;stroke:#c44e00}.d3{fill:#7a5cc0;stroke:#7a5cc0}\
.d4{fill:#8c7a00;stroke:#8c7a00}.d5{fill:#4d4d4d;stroke:#4d4d4d}.d6{fill:#882255;stroke:#882255}.d7{fill:#66a8a0;stroke:#66a8a0}\
.wide{stroke:#fff}.paper{fill:#fff}.idle{fill:url(#idle);stroke:none}.open{fill:#e2eefa;stroke:none}\
.release{fill:#1b2430;stroke:#1b2430;stroke-width:14}.deadline{stroke:#1b2430;stroke-width:14;stroke-dasharray:40 30}\
.miss{stroke:#1b2430;stroke-width:9}g:hover rect{opacity:.75}</style>\n\
<defs><pattern id=\"idle\" width=\"60\" height=\"60\" patternUnits=\"userSpaceOnUse\" patternTransform=\"rotate(45)\">\
<path d=\"M0 0h60v60h-60z\" fill=\"#f3f5f8\"/><path d=\"M0 0h20v60h-20z\" fill=\"#d5dbe4\"/></pattern></defs>\n";

/// The keys to all but the devices.
pub const KEYS: &str =
    "<rect class=\"compatible\" x=\"300\" y=\"615\" width=\"120\" height=\"120\"/><text class=\"key\" x=\"470\" y=\"720\">compatible interval</text>\n\
<rect class=\"predictable\" x=\"1980\" y=\"615\" width=\"120\" height=\"120\"/><text class=\"key\" x=\"2150\" y=\"720\">memory phase</text>\n\
<rect class=\"execution\" x=\"3400\" y=\"615\" width=\"120\" height=\"120\"/><text class=\"key\" x=\"3570\" y=\"720\">execution phase</text>\n\
<path class=\"release\" d=\"M4940 610v125m0 -50l-35 -65h70z\"/><text class=\"key\" x=\"5050\" y=\"720\">release, deadline</text>\n\
<path class=\"deadline\" d=\"M6430 610v125\"/><text class=\"key\" x=\"6540\" y=\"720\">last deadline</text>\n\
<path class=\"miss\" d=\"M7670 635v80\"/><text class=\"key\" x=\"7780\" y=\"720\">cache miss</text>\n\
<rect class=\"idle\" x=\"8800\" y=\"615\" width=\"120\" height=\"120\"/><text class=\"key\" x=\"8970\" y=\"720\">idle</text>\n\
<rect class=\"open\" x=\"9530\" y=\"615\" width=\"120\" height=\"120\"/><text class=\"key\" x=\"9700\" y=\"720\">bus open to devices</text>\n";

/// The size of a picture.
#[tactic(auto, unfolding(crate::specs::Head::size_text))]
fn size_text(alloc: Global, sheet: Canvas) -> Result<String, AllocError>
    ensures { IfOk result (λ s. string_bytes s ≡ size_text sheet) }
{
    let height = height_of(sheet);
    let units = height / 10;
    format!(in alloc;
        "<svg xmlns=\"http://www.w3.org/2000/svg\" viewBox=\"0 0 12000 {height}\" width=\"1200\" height=\"{units}\">\n"
    )
}

/// The ground below all.
#[tactic(auto, unfolding(crate::specs::Head::paper_text))]
fn paper_text(alloc: Global, sheet: Canvas) -> Result<String, AllocError>
    ensures { IfOk result (λ s. string_bytes s ≡ paper_text sheet) }
{
    let height = height_of(sheet);
    format!(in alloc; "<rect class=\"paper\" width=\"12000\" height=\"{height}\"/>\n")
}

/// How all looks.
#[tactic(auto, unfolding(crate::specs::Head::style_text))]
fn push_style(text: &mut Vec<u8>) -> Result<(), AllocError>
    ensures { OnOk result (text.new.items ≡ text.old.items ++ style_text) }
{
    text.extend_from_slice(STYLE.as_bytes())
}

/// The keys to all but the devices.
#[tactic(auto, unfolding(crate::specs::Head::keys_text))]
pub(crate) fn push_keys(text: &mut Vec<u8>) -> Result<(), AllocError>
    ensures { OnOk result (text.new.items ≡ text.old.items ++ keys_text) }
{
    text.extend_from_slice(KEYS.as_bytes())
}

/// The beginning of a picture, up to its ground.
pub(crate) fn push_ground(
    alloc: Global,
    text: &mut Vec<u8>,
    sheet: Canvas,
) -> Result<(), AllocError>
    ensures { OnOk result (text.new.items ≡ text.old.items ++ (size_text sheet ++ (style_text ++ paper_text sheet))) }
{
    text.extend_from_slice(size_text(alloc, sheet)?.as_bytes())?;
    push_style(text)?;
    text.extend_from_slice(paper_text(alloc, sheet)?.as_bytes())
}

/// Whose run it is.
pub(crate) fn push_title(text: &mut Vec<u8>, set: &str) -> Result<(), AllocError>
    ensures { OnOk result (text.new.items ≡ text.old.items ++ title_text set.now) }
{
    text.extend_from_slice(b"<text class=\"title\" x=\"300\" y=\"300\">")?;
    push_escaped(text, set.as_bytes())?;
    text.extend_from_slice(b"</text>\n")
}

/// The left edge of the key of device k.
fn key_x(k: u16) -> u32
    ensures is { result ≡ key_x k }
    ensures small { result ≤ 12000 }
{
    300 + 2850 * u32::from(k % 4)
}

/// Its upper edge.
fn key_y(k: u16) -> u32
    ensures is { result ≡ key_y k }
    ensures small { result ≤ 4000000 }
{
    815 + 200 * u32::from(k / 4)
}

/// The colour of device k.
#[tactic(auto, unfolding(crate::specs::Head::key_text))]
fn key_text(alloc: Global, k: u16) -> Result<String, AllocError>
    ensures { IfOk result (λ s. string_bytes s ≡ key_text k) }
{
    let (colour, x, y) = (k % 8, key_x(k), key_y(k));
    format!(in alloc;
        "<rect class=\"d{colour}\" x=\"{x}\" y=\"{y}\" width=\"120\" height=\"120\"/>"
    )
}

/// The beginning of its name.
#[tactic(auto, unfolding(crate::specs::Head::key_name))]
fn key_name(alloc: Global, k: u16) -> Result<String, AllocError>
    ensures { IfOk result (λ s. string_bytes s ≡ key_name k) }
{
    let (x, y) = (key_x(k) + 170, key_y(k) + 105);
    format!(in alloc; "<text class=\"key\" x=\"{x}\" y=\"{y}\">")
}

/// The key of device k, which has this name.
pub(crate) fn push_device_key(
    alloc: Global,
    text: &mut Vec<u8>,
    k: u16,
    device: &str,
) -> Result<(), AllocError>
    ensures { OnOk result (text.new.items ≡ text.old.items ++ device_key k device.now) }
{
    text.extend_from_slice(key_text(alloc, k)?.as_bytes())?;
    text.extend_from_slice(key_name(alloc, k)?.as_bytes())?;
    push_escaped(text, device.as_bytes())?;
    text.extend_from_slice(b"</text>\n")
}

/// How long the run took.
#[tactic(auto, unfolding(crate::specs::Head::time_text))]
pub(crate) fn time_text(alloc: Global, cycles: u64) -> Result<String, AllocError>
    ensures { IfOk result (λ s. string_bytes s ≡ time_text cycles) }
{
    format!(in alloc; "<text class=\"counts\" x=\"300\" y=\"500\">{cycles} cycles, ")
}

/// What the cache counted.
#[tactic(auto, unfolding(crate::specs::Head::cache_text))]
pub(crate) fn cache_text(alloc: Global, hits: u64, misses: u64) -> Result<String, AllocError>
    ensures { IfOk result (λ s. string_bytes s ≡ cache_text hits misses) }
{
    format!(in alloc; ". {hits} hits, {misses} misses, of which ")
}

/// What it counted of execution phases, and of lines that were written back.
#[tactic(auto, unfolding(crate::specs::Head::phase_text))]
pub(crate) fn phase_text(alloc: Global, misses: u64, backs: u64) -> Result<String, AllocError>
    ensures { IfOk result (λ s. string_bytes s ≡ phase_text misses backs) }
{
    format!(in alloc; "{misses} in execution phases, {backs} write backs, ")
}

/// What the bus counted.
#[tactic(auto, unfolding(crate::specs::Head::bus_text))]
pub(crate) fn bus_text(alloc: Global, clashes: u64) -> Result<String, AllocError>
    ensures { IfOk result (λ s. string_bytes s ≡ bus_text clashes) }
{
    format!(in alloc; "{clashes} clashes on the bus.</text>\n")
}
