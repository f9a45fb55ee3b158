//! The finished picture: its marks, what is around them, and its text. How a picture is written has no contract.
ghost use Rattle.std.specs.Prelude.{◌≡◌, ◌≤◌, ◌++◌, false};
ghost use Rattle.cast_record.specs.Written.{Puts};

use crate::cell::{Cell, LINES_FROM, Spot};
use crate::frames::{Column, Fate, MadeFrame, MadeFrames};
use crate::height::height_of;
use crate::ink::Ink;
use crate::ink::Piece::{Number, Place, Text};
use crate::layout::Layout;
use crate::mark::{Deed, Ground, Mark, Shown};
use crate::marks::{
    put_arrow, put_broadcast, put_crash, put_decision, put_delivery, put_ground, put_leaving,
    put_lost, put_refusal,
};
use crate::picture::Picture;
use crate::rows::crash_of;
use crate::side::Side;
use crate::style::{COLOUR_STYLE, LEGEND, LEGEND_HEIGHT, LEGEND_WIDTH, STYLE, TIPS};
use cast_message::{Config, NodeId};
use cast_record::{Meter, Written, mode_name, write_bytes};
use std::alloc::{AllocError, Global};
use std::io::Write;
use std::marker::Model;

// The distance between two names of a node on its line.
const BETWEEN_NAMES: u64 = 1500;

// The room for a name, so that none is cut at the right edge.
const NAME_WIDTH: u64 = 100;

/// A finished picture. Contracts see its text.
#[derive(Drop)]
pub struct Drawing {
    front: Ink,
    arrows: Ink,
    marks: Ink,
}

impl Model for Drawing {
    ghost use Rattle.std.specs.Prelude.{ℕ, List, ◌++◌};

    ghost Value = { List ℕ };

    ghost view = { λ drawing. drawing.front ++ (drawing.arrows ++ drawing.marks) };
}

impl Picture {
    /// The picture of all events that were taken.
    pub fn finish(self) -> Result<Drawing, AllocError> {
        let nodes = self.config.nodes();
        let width = (self.layout.next() + 8).max(LEGEND_WIDTH);
        let bottom = self.bottom();
        let foot = bottom + 44;
        let mut front = Ink::new(self.alloc);
        put_head(&mut front, &self.config, width, foot + LEGEND_HEIGHT)?;
        for ground in self.grounds.as_slice() {
            draw_ground(&mut front, &self.layout, ground, bottom - 32)?;
        }
        put_lines(
            &mut front,
            &self.layout,
            self.crashes.as_slice(),
            nodes,
            width,
        )?;
        let (mut arrows, mut marks) = draw_marks(self.alloc, &self, bottom + 12)?;
        put_stubs(&mut arrows, &self.layout, self.made.as_slice())?;
        put_foot(&mut marks, foot)?;
        Ok(Drawing {
            front,
            arrows,
            marks,
        })
    }
}

fn draw_ground(
    ink: &mut Ink,
    layout: &Layout,
    ground: &Ground,
    height: u64,
) -> Result<(), AllocError> {
    let from = layout.start(ground.from).x();
    let width = layout.start(ground.to).x().saturating_sub(from);
    put_ground(ink, from - 8, width, height, ground.event)
}

// The arrows, and the marks in front of them. Refusals are at this height.
fn draw_marks(alloc: Global, picture: &Picture, refusals: u64) -> Result<(Ink, Ink), AllocError>
    requires { (76 ≤ refusals) × (refusals ≤ 16384) }
{
    let mut arrows = Ink::new(alloc);
    let mut marks = Ink::new(alloc);
    // The column of the mark before, and how many boxes and diamonds it has so far.
    let (mut column, mut place) = (0u64, 0u64);
    for mark in picture.marks.as_slice() {
        if mark.column != column {
            (column, place) = (mark.column, 0);
        }
        let x = picture.layout.start(column);
        match &mark.shown {
            Shown::Arrival { frame, node } => {
                let start = Spot::on_line(frame_start(&picture.layout, frame), frame.from);
                put_arrow(
                    &mut arrows,
                    frame,
                    start,
                    Spot::on_line(x, *node),
                    mark.event,
                )?;
            }
            Shown::Done { node, deed } => {
                let cell = Cell::below(Spot::on_line(x, *node), place)?;
                draw_deed(&mut marks, cell, mark.event, *node, deed)?;
                place = place.saturating_add(1);
            }
            Shown::Broadcast { node, number, item } => {
                let spot = Spot::on_line(x, *node);
                put_broadcast(&mut marks, spot, mark.event, *node, *number, item)?;
            }
            Shown::Crash { node } => {
                put_crash(&mut marks, Spot::on_line(x, *node), mark.event, *node)?;
            }
            Shown::Refusal { fault } => {
                let spot = Spot {
                    x: x.x(),
                    y: refusals,
                };
                put_refusal(&mut marks, spot, mark.event, fault.code())?;
            }
        }
    }
    Ok((arrows, marks))
}

// Where the line of a frame starts: in the column in which it was made, or where the lines begin.
fn frame_start(layout: &Layout, frame: &MadeFrame) -> Column {
    if frame.is_shown {
        layout.start(frame.column)
    } else {
        Column::at(LINES_FROM)
    }
}

fn draw_deed(
    ink: &mut Ink,
    cell: Cell,
    event: u64,
    node: NodeId,
    deed: &Deed,
) -> Result<(), AllocError> {
    match deed {
        Deed::Delivers(message) => put_delivery(ink, cell, event, node, message),
        Deed::Decides(decision) => put_decision(ink, cell, event, node, *decision),
    }
}

/// Writes the picture. It allocates nothing. It fails only if the writer fails or takes no byte. Then a prefix of the text is
/// written, and the meter says from then on that it failed.
pub fn write_drawing<W: Write>(drawing: &Drawing, writer: &mut Meter<W>) -> Written
    requires { writer.old.failed ≡ false }
    ensures { Puts W.contents writer.old writer.new result drawing.now }
{
    write_bytes(drawing.front.as_slice(), writer)?;
    write_bytes(drawing.arrows.as_slice(), writer)?;
    write_bytes(drawing.marks.as_slice(), writer)
}

fn put_head(ink: &mut Ink, config: &Config, width: u64, height: u64) -> Result<(), AllocError> {
    ink.put(&[
        Text(b"<svg xmlns='http://www.w3.org/2000/svg' version='1.1' viewBox='0 0 "),
        Number(width),
        Text(b" "),
        Number(height),
        Text(b"' width='"),
        Number(width),
        Text(b"' height='"),
        Number(height),
        Text(b"'>\n<title>"),
    ])?;
    put_caption(ink, config)?;
    put_style(ink)?;
    put_caption(ink, config)?;
    ink.put_bytes(b"</text>\n")
}

// The legend, at this height, and the end of the picture.
fn put_foot(ink: &mut Ink, y: u64) -> Result<(), AllocError> {
    ink.put(&[
        Text(b"<g class='legend' transform='translate(12 "),
        Number(y),
        Text(b")'>\n"),
        Text(LEGEND),
        Text(b"</g>\n</svg>\n"),
    ])
}

fn put_style(ink: &mut Ink) -> Result<(), AllocError> {
    ink.put(&[Text(b"</title>\n<style>"), Text(STYLE), Text(COLOUR_STYLE)])?;
    put_tip_styles(ink, TIPS)?;
    ink.put_bytes(b"</style>\n<defs>")?;
    put_tips(ink, TIPS)?;
    ink.put_bytes(
        b"</defs>\n<rect class='paper' width='100%' height='100%'/>\n<text class='h' x='12' y='20'>",
    )
}

fn put_tip_styles<'a>(ink: &mut Ink, kinds: &[(&'a [u8], &'a [u8])]) -> Result<(), AllocError> {
    for (class, _) in kinds {
        ink.put(&[
            Text(b".a."),
            Text(class),
            Text(b"{marker-end:url(#m"),
            Text(class),
            Text(b")}"),
        ])?;
    }
    Ok(())
}

fn put_tips<'a>(ink: &mut Ink, kinds: &[(&'a [u8], &'a [u8])]) -> Result<(), AllocError> {
    for (class, colour) in kinds {
        ink.put(&[
            Text(b"<marker id='m"),
            Text(class),
            Text(
                b"' viewBox='0 0 8 8' refX='8' refY='4' markerWidth='6' markerHeight='6' orient='auto'>",
            ),
            Text(b"<path d='M0 1L8 4L0 7z' fill='"),
            Text(colour),
            Text(b"'/></marker>"),
        ])?;
    }
    Ok(())
}

fn put_caption(ink: &mut Ink, config: &Config) -> Result<(), AllocError> {
    ink.put(&[
        Text(b"nodes: "),
        Number(config.nodes()),
        Text(b", crashes tolerated: "),
        Number(config.faults()),
        Text(b", values decided in an instance: at most "),
        Number(config.choices()),
        Text(values_word(config)),
        Text(mode_name(config.mode())),
    ])
}

// What follows the number of choices.
fn values_word(config: &Config) -> &'static [u8] {
    if config.faults() < config.choices() {
        b", mode: "
    } else {
        b" (not promised), mode: "
    }
}

fn put_lines(
    ink: &mut Ink,
    layout: &Layout,
    crashes: &[Option<u64>],
    nodes: u64,
    width: u64,
) -> Result<(), AllocError>
    requires { nodes ≤ 64 }
{
    for node in 0..nodes as u8 {
        let node = NodeId(node);
        let crash = crash_of(crashes, node).map(|column| layout.start(column).x());
        put_lane(ink, node, crash, width)?;
    }
    Ok(())
}

// The line of a node, and its name along it.
fn put_lane(ink: &mut Ink, node: NodeId, crash: Option<u64>, width: u64) -> Result<(), AllocError> {
    put_line(ink, node, crash, width)?;
    put_names(ink, node, width)
}

// The name of a node, again and again along its line if the picture is wide.
fn put_names(ink: &mut Ink, node: NodeId, width: u64) -> Result<(), AllocError> {
    for place in 0..width.saturating_sub(NAME_WIDTH) / BETWEEN_NAMES {
        put_name(ink, node, BETWEEN_NAMES * (place + 1))?;
    }
    Ok(())
}

fn put_name(ink: &mut Ink, node: NodeId, x: u64) -> Result<(), AllocError> {
    ink.put(&[
        Text(b"<text class='l' x='"),
        Number(x),
        Text(b"' y='"),
        Number(height_of(node) + 4),
        Text(b"'>node "),
        Number(u64::from(node.0)),
        Text(b"</text>\n"),
    ])
}

fn put_line(ink: &mut Ink, node: NodeId, crash: Option<u64>, width: u64) -> Result<(), AllocError> {
    match crash {
        None => put_life(ink, node, width),
        Some(end) => {
            put_life(ink, node, end)?;
            put_rest(ink, node, end, width)
        }
    }
}

// The name of a node, and its line up to its crash.
fn put_life(ink: &mut Ink, node: NodeId, end: u64) -> Result<(), AllocError> {
    let y = height_of(node);
    ink.put(&[
        Text(b"<text class='n' x='12' y='"),
        Number(y + 4),
        Text(b"'>node "),
        Number(u64::from(node.0)),
        Text(b"</text><path class='p' d='M"),
        Place(LINES_FROM, y),
        Text(b"H"),
        Number(end),
        Text(b"'/>\n"),
    ])
}

// Its line after it crashed.
fn put_rest(ink: &mut Ink, node: NodeId, from: u64, width: u64) -> Result<(), AllocError> {
    ink.put(&[
        Text(b"<path class='z' d='M"),
        Place(from, height_of(node)),
        Text(b"H"),
        Number(width),
        Text(b"'/>\n"),
    ])
}

fn put_stubs(ink: &mut Ink, layout: &Layout, made: &[MadeFrames]) -> Result<(), AllocError> {
    for frames in made {
        put_stubs_of(ink, layout, frames.as_slice())?;
    }
    Ok(())
}

fn put_stubs_of(ink: &mut Ink, layout: &Layout, frames: &[MadeFrame]) -> Result<(), AllocError> {
    for frame in frames {
        put_stub(ink, layout, frame)?;
    }
    Ok(())
}

fn put_stub(ink: &mut Ink, layout: &Layout, frame: &MadeFrame) -> Result<(), AllocError> {
    if !frame.is_shown {
        return Ok(());
    }
    let start = Spot::on_line(layout.start(frame.column), frame.from);
    let side = Side::of(frame.from, frame.to);
    match frame.fate {
        Fate::UnderWay => put_lost(ink, frame, start, side),
        Fate::ArrivedUnseen => put_leaving(ink, frame, start, side),
        Fate::Shown => Ok(()),
    }
}
