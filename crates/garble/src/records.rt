// A charged gate, garbled into the buffers: its zero token and its record (01, Material).
// A record is written to a place in the material, a token to a slot of the zeros. A part of either lent alone would be
// no plainer: `ChargedIs`, as the walk's `StepIs`, says of the whole buffers what they were and are (`put`).
ghost use Rattle.std.specs.Prelude.{◌≡◌, ◌+◌, ◌≤◌, length};
ghost use Rattle.model.specs.Bytes.{put};
ghost use Rattle.garble.specs.Held.{FreshIs};
ghost use Rattle.garble.specs.Walk.{WriterRoom, written_record, site_at, ChargedStart, ChargedIs};

use crate::gate::GateIn;
use crate::plan::Plan;
use block::{Block, store};
use material::writers::write_record_head;
use model::{AndGate, Wire};
use scheme::{GarbledGate, Garbler};

// A row of a record. It is as long as any block, which a proof does not know of an array's element.
fn write_row(material: &mut [u8], at: usize, row: Block)
    requires { at + 16 ≤ length material.old }
    ensures { (material.new ≡ put material.old at row.bytes) × (length row.bytes ≡ 16) }
{
    store(material, at, row);
}

// The record of a charged gate, with as many rows as its scheme stores: mark 47 54, its wire number, and the rows.
pub fn write_record(material: &mut [u8], at: usize, own: Wire, stored: usize, g: GarbledGate)
    requires { WriterRoom at stored material.old }
    ensures { material.new ≡ put material.old at (written_record own.0 stored g) }
{
    write_record_head(material, at, own);
    for (i, row) in g.rows[..stored].iter().enumerate() {
        write_row(material, at + 4 + 16 * i, *row);
    }
}

// A charged gate: its zero token goes to a slot of the zeros, its record to a place in the material. Answers the encryptions made.
pub fn garble_charged(
    garbler: &Garbler,
    plan: &Plan,
    g: GateIn,
    kind: AndGate,
    fresh: Block,
    material: &mut [u8],
    at: usize,
    zeros: &mut [u8],
    slot: usize,
) -> usize
    requires charged_start { ChargedStart plan.now.wanted.scheme plan.now.stored g.code kind.u.bit kind.v.bit kind.own.bit material.old at zeros.old slot }
    requires fresh_is { FreshIs plan.now.seed.key.bytes plan.now.wanted g.code g.own.0 fresh.bytes }
    ensures { ChargedIs plan.now.wanted.scheme (site_at plan.now g) material.old at zeros.old slot material.new zeros.new result }
{
    let made = g.garbled(garbler, plan, kind, fresh);
    store(zeros, slot, made.zero);
    write_record(material, at, g.own, plan.stored, made);
    made.calls
}
