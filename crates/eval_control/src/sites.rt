// The places of forms in the file.

ghost use Rattle.std.specs.Prelude.{◌≡◌};
ghost use Rattle.lang_meaning.specs.Meaning.{place_of_site};
ghost use Rattle.eval_machine.specs.Configuration.{configuration, evaluate};
ghost use Rattle.eval_state.specs.View.{ContinuesAs, at};
ghost use Rattle.std.specs.Prelude.{OnOk};

use base::{NoMemory, Place};
use eval_state::machine::Machine;
use eval_state::situation::{DynamicLinks, Situation};
use flat_language::FlatCore;
use lang_meaning::SiteId;

/// A form of the file is evaluated, which has a site.
pub fn form_at_site<'p>(
    machine: &mut Machine<'p>,
    site: SiteId,
    form: &'p FlatCore,
    situation: Situation,
) -> Result<(), NoMemory>
    ensures { OnOk result (ContinuesAs machine.old machine.new 0 (λ names s. configuration (evaluate form.now (record (at names machine.old situation) { around = record (at names machine.old situation).around { site = place_of_site s.program.sites site } })))) }
{
    let place = place_of(machine, site);
    machine.evaluate(form, at_place(situation, place));
    Ok(())
}

// The place of a site.
fn place_of(machine: &Machine<'_>, site: SiteId) -> Place
    ensures { result ≡ place_of_site machine.now.given.program.now.sites site }
{
    match machine.given.program.sites.get(site.saturating_sub(1)) {
        Some(place) => *place,
        None => Place { line: 0, column: 0 },
    }
}

// The situation at another place of the file.
fn at_place(situation: Situation, place: Place) -> Situation
    ensures { result ≡ record situation { around = record situation.around { site = place } } }
{
    Situation {
        level: situation.level,
        own: situation.own,
        around: DynamicLinks {
            exits: situation.around.exits,
            handlers: situation.around.handlers,
            bindings: situation.around.bindings,
            site: place,
        },
    }
}
