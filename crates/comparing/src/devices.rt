// The devices of two layouts, under their sheets' defects and levels.
ghost use Rattle.std.specs.Prelude.{◌≡◌, MatchResult};
ghost use Rattle.std.specs.Vec.{vec_items as items};
ghost use Rattle.comparing.specs.Sheets.{Weighed};
ghost use Rattle.comparing.specs.Sides.{SidesWeighed};
ghost use Rattle.replaying.specs.Layouts.{tier_over};
ghost use Rattle.replaying.specs.Bounds.{Rising};

use crate::fault::LayoutFault;
use crate::levels::{Stack, compare_levels};
use crate::side::Side;
use certificate::Comparison;
use device::Device;
use formats::Sheet;
use layers::DefectList;
use replaying::list_defects;
use std::alloc::Global;
use tier::Floor;

// A device under a list of defects.
fn list_of<D: Drop>(heap: Global, device: D, defects: &[u16]) -> Result<DefectList<D>, LayoutFault>
    requires { Rising defects.now }
    ensures { MatchResult result (λ l. (l.below ≡ device) × (items l.numbers ≡ defects.now)) (λ f. f ≡ LayoutFault.Memory) }
{
    let mut list = DefectList::new(heap, device);
    list_defects(&mut list, defects).map_err(|_| LayoutFault::Memory)?;
    Ok(list)
}

// Compares the levels of two sheets over devices that have their defects.
fn compare_floors<D: Device + Drop, E: Device + Drop>(
    heap: Global,
    one: D,
    first: Side<&Sheet>,
    other: E,
    second: Side<&Sheet>,
) -> Result<Comparison, LayoutFault>
    ensures { Weighed (tier_over (items first.entry.sheet.now.levels) (D.Source.store one)) first.entry.levels (tier_over (items second.entry.sheet.now.levels) (E.Source.store other)) second.entry.levels result }
{
    let first = Stack {
        tier: Floor::new(one),
        side: first,
    };
    let second = Stack {
        tier: Floor::new(other),
        side: second,
    };
    Ok(compare_levels(heap, first, second)?)
}

// Compares the layouts of two sheets over their devices.
pub fn compare_listed<D: Device + Drop, E: Device + Drop>(
    heap: Global,
    one: D,
    first: Side<&Sheet>,
    other: E,
    second: Side<&Sheet>,
) -> Result<Comparison, LayoutFault>
    ensures { SidesWeighed first.entry (D.Source.store one) second.entry (E.Source.store other) result }
{
    let one = list_of(heap, one, &first.sheet.defects)?;
    let other = list_of(heap, other, &second.sheet.defects)?;
    compare_floors(heap, one, first, other, second)
}
