// The layout walk for the phone app in C: a crate of its own, since a static library serves no other crate, and the worked examples call the walk too.
#![tactic(auto)]

ghost use Rattle.std.specs.Prelude.{◌≡◌};
ghost use Rattle.phone.specs.App.{reported, ReportedOff};
ghost use Rattle.phone.specs.Layout.{walked};

use phone::app::Report;

#[unsafe(no_mangle)]
pub extern "C" fn youthgoat_layout_walk(picture: &[u8]) -> Report
    ensures value { result ≡ reported (walked picture.now).answer }
    ensures laid { ReportedOff picture.now result }
{
    phone::app::youthgoat_layout_walk(picture)
}
