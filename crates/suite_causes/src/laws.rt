//! Laws of searches by the outputs of their probes.

ghost use Rattle.std.specs.Prelude.{◌≡◌, ◌++◌, ℕ, List, length};
ghost use Rattle.edge_io.specs.Children.{Output};
ghost use Rattle.edge_io.specs.Spawners.{Spawning};
ghost use Rattle.isolation_bisect.specs.Verdicts.{Licenses};
ghost use Rattle.isolation_bisect.specs.declared.found.Found.{Found};
ghost use Rattle.isolation_bisect.specs.declared.probe.Asked.{Asked};
ghost use Rattle.packet_codec.specs.declared.event.Event.{Event};
ghost use Rattle.suite_causes.specs.Analysis.{asked_for, AreCauseLines, AreSearched, UsesNoBroken};
ghost use Rattle.suite_causes.specs.Searching.{TestIds, HasAsked, SearchesSo};
ghost use Rattle.suite_causes.specs.declared.suspects.Suspect.{Suspect as ASuspect};
ghost use Rattle.testr_conf.specs.Settings.{Settings};

/// The outputs of the probes decide the searches and the lines.
pub fn outputs_decide_causes()
    // A search that came to a verdict asked what the outputs say, whatever outputs come behind those of its probes.
    ensures asked { (settings : Settings) (candidates : TestIds) (test : List ℕ) (asked : List Asked) (s t : Spawning) (found : Found) (later : List Output) → (has : HasAsked settings candidates test asked s t) → Licenses asked (length candidates) found → asked_for test candidates (has.outputs ++ later) ≡ asked }
    // A search that came to a verdict used no output of a child that is broken.
    ensures unbroken { (settings : Settings) (candidates : TestIds) (test : List ℕ) (found : Found) (s t : Spawning) → SearchesSo settings candidates test found s t → UsesNoBroken test candidates s.outputs }
    // Searches one after another come to the lines that the outputs say.
    ensures searched { (settings : Settings) (events : List Event) (suspects : List ASuspect) (text : List ℕ) (s t : Spawning) → AreSearched settings events suspects text s t → AreCauseLines events suspects s.outputs text }
    // There is one text of all lines.
    ensures one_text { (events : List Event) (suspects : List ASuspect) (outputs : List Output) (text other : List ℕ) → AreCauseLines events suspects outputs text → AreCauseLines events suspects outputs other → text ≡ other }
{}
