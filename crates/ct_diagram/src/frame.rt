//! What stands around the steps: how things look, the members' lines, and what the signs mean.

ghost use Rattle.std.specs.Prelude.{◌≡◌, ◌≤◌, ◌+◌, OnOk};
ghost use Rattle.ct_text.specs.Adds.{Adds};
ghost use Rattle.ct_diagram.specs.Grid.{row_of};
ghost use Rattle.ct_diagram.specs.Frame.{row_end, low, width, sizes_text, head_text, name_text, line_text, lane_text};
ghost use Rattle.ct_diagram.specs.Frame.{row_text, rows_text, below_text, legend_text, foot_text};

use crate::grid::{COLUMN, Grid, LEAST_WIDTH, LEFT};
use ct_show::{LETTERS, OTHER_LETTERS};
use std::alloc::AllocError;

// How things look.
const STYLE: &str = "<style>
text{font:10px sans-serif;text-anchor:middle}
.name,.legend{text-anchor:start}
.round,.note,.number{paint-order:stroke;stroke:#fff;stroke-width:3px;stroke-linejoin:round}
.round{fill:#555;font-size:9px}
.note{fill:#256;font-size:8px;text-anchor:start}
.left{text-anchor:end}
.number{fill:#888;font-size:9px}
rect{width:26px;height:32px}
.rest{fill:#f2f2f2}
.odd{fill:#e3eefb}
.even{fill:#fdebd5}
.down{fill:#d4d4d4}
circle{stroke:#333;fill:#fff}
.net{fill:#eee;stroke:#999}
.alarm{fill:#fbd0d0;stroke:#b00}
.decision{fill:#efd3f3;stroke:#a030b0}
.delivery{fill:#d2f0d2;stroke:#080}
path{fill:none;stroke-width:1.3}
.lane{stroke:#333;stroke-width:1}
.grid{stroke:#ececec;stroke-width:1}
.data{stroke:#c4c4c4;stroke-width:1;marker-end:url(#data)}
.est{stroke:#1a8f6e;marker-end:url(#est)}
.prop{stroke:#2060d0;marker-end:url(#prop)}
.ack{stroke:#3a9a3a;marker-end:url(#ack)}
.nack{stroke:#cc3333;marker-end:url(#nack)}
.dec{stroke:#a030b0;marker-end:url(#dec)}
.dot{stroke-width:0.6}
.dot.data{stroke:#555;fill:#777}
.dot.est{fill:#1a8f6e}
.dot.prop{fill:#2060d0}
.dot.ack{fill:#3a9a3a}
.dot.nack{fill:#cc3333}
.dot.dec{fill:#a030b0}
path.stub{stroke-dasharray:3 3;marker-end:none}
path.lost{marker-end:url(#lost)}
path.late{opacity:.45}
.tip{stroke:none}
</style>
<marker id='data' viewBox='0 0 8 8' refX='11' refY='4' markerWidth='7' markerHeight='7' orient='auto'>
<path class='tip' d='M0 0L8 4L0 8z' style='fill:#b0b0b0'/></marker>
<marker id='est' viewBox='0 0 8 8' refX='11' refY='4' markerWidth='7' markerHeight='7' orient='auto'>
<path class='tip' d='M0 0L8 4L0 8z' style='fill:#1a8f6e'/></marker>
<marker id='prop' viewBox='0 0 8 8' refX='11' refY='4' markerWidth='7' markerHeight='7' orient='auto'>
<path class='tip' d='M0 0L8 4L0 8z' style='fill:#2060d0'/></marker>
<marker id='ack' viewBox='0 0 8 8' refX='11' refY='4' markerWidth='7' markerHeight='7' orient='auto'>
<path class='tip' d='M0 0L8 4L0 8z' style='fill:#3a9a3a'/></marker>
<marker id='nack' viewBox='0 0 8 8' refX='11' refY='4' markerWidth='7' markerHeight='7' orient='auto'>
<path class='tip' d='M0 0L8 4L0 8z' style='fill:#cc3333'/></marker>
<marker id='dec' viewBox='0 0 8 8' refX='11' refY='4' markerWidth='7' markerHeight='7' orient='auto'>
<path class='tip' d='M0 0L8 4L0 8z' style='fill:#a030b0'/></marker>
<marker id='lost' viewBox='0 0 8 8' refX='18' refY='4' markerWidth='8' markerHeight='8' markerUnits='userSpaceOnUse' orient='auto'>
<path class='tip' d='M1 1L7 7M1 7L7 1' style='stroke:#b00;stroke-width:2'/></marker>
<rect y='30' style='width:100%;height:100%;fill:#fff'/>
";

// What the lines of envelopes mean.
const LINES: &str = "<path class='data' d='M0 -4H30'/><text class='legend' x='34' y='0'>data</text>
<path class='est' d='M66 -4H96'/><text class='legend' x='100' y='0'>estimate</text>
<path class='prop' d='M150 -4H180'/><text class='legend' x='184' y='0'>proposal</text>
<path class='ack' d='M234 -4H264'/><text class='legend' x='268' y='0'>ack</text>
<path class='nack' d='M294 -4H324'/><text class='legend' x='328' y='0'>nack</text>
<path class='dec' d='M358 -4H388'/><text class='legend' x='392' y='0'>decision</text>
<path class='data stub' d='M442 -4H472'/><text class='legend' x='476' y='0'>not received here</text>
<path class='data lost' d='M572 -4H612'/><text class='legend' x='612' y='0'>lost</text>
";

// What the shades behind the steps mean, and what is pale, and the end.
const SHADES: &str = "Behind them: odd rounds blue, even ones orange, crashed grey.</text>
<text class='legend' x='0' y='46'>Small and pale: a receipt that changes nothing.</text>
</g>
</svg>
";

// What stands before the steps: sizes for columns up to a place, and how things look.
pub(crate) fn push_head(text: &mut String, grid: Grid, end: u16) -> Result<(), AllocError>
    ensures { OnOk result (Adds text.old text.new (head_text grid end)) }
{
    push_sizes(text, width(grid, end), low(grid, end) + 32)?;
    text.push_str(STYLE)
}

#[tactic(auto, unfolding(crate::specs::Frame::sizes_text))]
fn push_sizes(text: &mut String, wide: u32, high: u64) -> Result<(), AllocError>
    ensures { OnOk result (Adds text.old text.new (sizes_text wide high)) }
{
    write!(
        text,
        "<svg xmlns='http://www.w3.org/2000/svg' width='{wide}' height='{high}' viewBox='0 30 {wide} {high}'>\n"
    )
}

// Room for the columns, and for what the signs mean.
fn width(grid: Grid, end: u16) -> u32
    ensures { result ≡ width grid end }
{
    let wide = row_end(grid, end, 0) + 30;
    wide.max(LEAST_WIDTH)
}

// Where the lines of a row end.
fn row_end(grid: Grid, end: u16, row: u32) -> u32
    ensures value { result ≡ row_end grid end row }
    ensures few { result ≤ 2000000 }
{
    if row < grid.row(end) {
        grid.right()
    } else {
        LEFT + COLUMN / 2 * grid.within(end)
    }
}

// How low what the signs mean begins.
fn low(grid: Grid, end: u16) -> u64
    ensures value { result ≡ low grid end }
    ensures few { result ≤ 1500100000 }
{
    u64::from(grid.row(end) + 1) * u64::from(grid.height()) + 30
}

// The rows of members' names and lines.
pub(crate) fn push_rows(text: &mut String, grid: Grid, end: u16) -> Result<(), AllocError>
    ensures { OnOk result (Adds text.old text.new (rows_text grid end (row_of grid end + 1))) }
{
    let rows = grid.row(end) + 1;
    for i in 0..rows {
        push_row(text, grid, i, row_end(grid, end, i))?;
    }
    Ok(())
}

fn push_row(text: &mut String, grid: Grid, row: u32, right: u32) -> Result<(), AllocError>
    requires { row ≤ 65535 }
    ensures { OnOk result (Adds text.old text.new (row_text grid row right grid.n)) }
{
    for i in 0..grid.n {
        let y = u64::from(grid.top(row)) + u64::from(grid.lane()) * u64::from(i + 1);
        push_lane(text, i + 1, y, right)?;
    }
    Ok(())
}

fn push_lane(text: &mut String, member: u8, y: u64, right: u32) -> Result<(), AllocError>
    requires { y ≤ 4294967295 }
    ensures { OnOk result (Adds text.old text.new (lane_text member y right)) }
{
    push_name(text, member, y)?;
    push_line(text, y, right)
}

#[tactic(auto, unfolding(crate::specs::Frame::name_text))]
fn push_name(text: &mut String, member: u8, y: u64) -> Result<(), AllocError>
    requires { y ≤ 4294967295 }
    ensures { OnOk result (Adds text.old text.new (name_text member y)) }
{
    let low = y + 4;
    write!(
        text,
        "<text class='name' x='6' y='{low}'>member {member}</text>\n"
    )
}

#[tactic(auto, unfolding(crate::specs::Frame::line_text))]
fn push_line(text: &mut String, y: u64, right: u32) -> Result<(), AllocError>
    ensures { OnOk result (Adds text.old text.new (line_text y right)) }
{
    write!(text, "<path class='lane' d='M{LEFT} {y}H{right}'/>\n")
}

// What stands behind the steps: what the signs mean.
pub(crate) fn push_foot(text: &mut String, grid: Grid, end: u16) -> Result<(), AllocError>
    ensures { OnOk result (Adds text.old text.new (foot_text grid end)) }
{
    push_below(text, low(grid, end))?;
    push_legend(text)
}

#[tactic(auto, unfolding(crate::specs::Frame::legend_text))]
fn push_legend(text: &mut String) -> Result<(), AllocError>
    ensures { OnOk result (Adds text.old text.new legend_text) }
{
    text.push_str(LINES)?;
    write!(
        text,
        "<text class='legend' x='0' y='18'>Steps: {LETTERS},</text>\n<text class='legend' x='0' y='32'>{OTHER_LETTERS}.\n "
    )?;
    text.push_str(SHADES)
}

#[tactic(auto, unfolding(crate::specs::Frame::below_text))]
fn push_below(text: &mut String, low: u64) -> Result<(), AllocError>
    ensures { OnOk result (Adds text.old text.new (below_text low)) }
{
    write!(text, "<g transform='translate(12 {low})'>\n")
}
