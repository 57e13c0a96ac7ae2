// The columns and nevers that an encounter meets, from its values.
ghost use Rattle.judging.specs.Judged.{Meets, MeetsBoth};
ghost use Rattle.lists.specs.Held.{encounter_of};

use crate::bits::{has, in_use};
use kinds::Kind;
use lists::lent::Encounter;
use lists::view::View;
use outcomes::judge::meets_column;
use results::ResultKind;
use sets::Met;

// The columns and nevers in use that an encounter meets.
fn meets<K: Kind, R: ResultKind>(view: &View<'_, K, R>, e: &Encounter<'_, K::Value>) -> u32
    ensures { Meets K.Kind.meaning view.now result (encounter_of e.now) }
{
    let in_use = in_use(view);
    let mut set = 0;
    for k in 0..24 {
        if has(in_use, k) && meets_column(view, k, e) {
            set |= 1 << k;
        }
    }
    set
}

// The same as it stands and with the flights exchanged.
pub fn met_at<K: Kind, R: ResultKind>(view: &View<'_, K, R>, e: &Encounter<'_, K::Value>) -> Met
    ensures { MeetsBoth K.Kind.meaning view.now result (encounter_of e.now) }
{
    Met {
        here: meets(view, e),
        exchanged: meets(view, &e.exchanged()),
    }
}
