//! Laws over what is said, by hand, and over what is written: each is the contract of a function that does nothing.
ghost use Rattle.std.specs.Prelude.{◌≡◌, ℕ, [], codes};
ghost use Rattle.gl_desk.specs.declared.slot.Slot.TheVariants.{Deck, Library, Map, Report, Out};
ghost use Rattle.gl_job.specs.Texts.{line_of};
ghost use Rattle.gl_job.specs.declared.stop.Stop.TheVariants as stops;
ghost use Rattle.gl_deck.specs.declared.fault.DeckFault.TheVariants as decks;
ghost use Rattle.gl_flat.specs.declared.fault.FlatFault.TheVariants as flats;
ghost use Rattle.gl_cells.specs.declared.fault.LibFault.TheVariants as cells;
ghost use Rattle.gl_limit.specs.declared.limit.OutLimit.TheVariants as limits;
ghost use Rattle.gl_map.specs.declared.fault.MapFault.TheVariants as maps;
ghost use Rattle.gl_restore.specs.declared.fault.RestoreFault.TheVariants as names;
ghost use Rattle.gl_restore.specs.declared.too_long.TextFault.TheVariants as texts;
ghost use Rattle.gl_job.specs.Runs.{Run};
ghost use Rattle.gl_job.specs.Claims.{IsDone};
ghost use Rattle.gl_words.specs.Jobs.{Request, RestoreRequest};
ghost use Rattle.gl_run.specs.Jobs.{lift_course, restore_course};
ghost use Rattle.gl_run.specs.Claims.{IsEnding};
ghost use Rattle.gl_run.specs.WayBack.{IsLiftedBy, HoldLifted, IsTaken};
ghost use Rattle.gl_run.specs.Endings.{end_of};
ghost use Rattle.gl_run.specs.declared.ending.Ending.TheVariants as endings;

use gl_lift::texts_lead_back;

/// What is said of each ending.
pub fn said_lines()
    ensures done { line_of (end_of endings.Done) ≡ [] }
    ensures words { line_of (end_of endings.Words) ≡ codes "gatelift: 1 words\n" }
    ensures deck { line_of (end_of (endings.Deck (decks.LoosePlus 2)))
        ≡ codes "gatelift: 2 deck: 1 LoosePlus line=2\n" }
    ensures flat { line_of (end_of (endings.Flat (flats.TopDevices 5)))
        ≡ codes "gatelift: 2 deck: 25 TopDevices line=5\n" }
    ensures long_name { line_of (end_of (endings.Limit limits.Name))
        ≡ codes "gatelift: 6 limit: 50 OutLimit which=Name number=1024\n" }
    ensures many_cards { line_of (end_of (endings.Limit limits.Cards))
        ≡ codes "gatelift: 6 limit: 50 OutLimit which=Cards number=400000\n" }
    ensures long_lifted { line_of (end_of (endings.Limit limits.LiftedText))
        ≡ codes "gatelift: 6 limit: 50 OutLimit which=LiftedText number=67108864\n" }
    ensures long_flat { line_of (end_of (endings.Limit limits.LiftedFlat))
        ≡ codes "gatelift: 6 limit: 50 OutLimit which=LiftedFlat number=67108864\n" }
    ensures long_names { line_of (end_of (endings.Limit limits.MapText))
        ≡ codes "gatelift: 6 limit: 50 OutLimit which=MapText number=67108864\n" }
    ensures long_report { line_of (end_of (endings.Limit limits.ReportText))
        ≡ codes "gatelift: 6 limit: 50 OutLimit which=ReportText number=67108864\n" }
    ensures library { line_of (end_of (endings.Library (cells.TopCard 3)))
        ≡ codes "gatelift: 3 library: 30 TopCard line=3\n" }
    ensures map { line_of (end_of (endings.Map (maps.BadLine 3)))
        ≡ codes "gatelift: 4 map: 41 BadLine line=3\n" }
    ensures header { line_of (end_of (endings.Map maps.BadHeader))
        ≡ codes "gatelift: 4 map: 40 BadHeader\n" }
    ensures names { line_of (end_of (endings.Names (names.NetMerge 5)))
        ≡ codes "gatelift: 4 map: 46 NetMerge line=5\n" }
    ensures long_text { line_of (end_of (endings.Text texts.RestoredText))
        ≡ codes "gatelift: 6 limit: 50 OutLimit which=RestoredText number=67108864\n" }
    ensures long_map { line_of (end_of (endings.Stopped (stops.LongFile Map)))
        ≡ codes "gatelift: 6 limit: LongFile slot=Map number=67108865\n" }
    ensures long_deck { line_of (end_of (endings.Stopped (stops.LongFile Deck)))
        ≡ codes "gatelift: 6 limit: LongFile slot=Deck number=67108865\n" }
    ensures long_library { line_of (end_of (endings.Stopped (stops.LongFile Library)))
        ≡ codes "gatelift: 6 limit: LongFile slot=Library number=67108865\n" }
    ensures read { line_of (end_of (endings.Stopped (stops.Read Library)))
        ≡ codes "gatelift: 7 read: Library\n" }
    ensures write { line_of (end_of (endings.Stopped (stops.Write Report)))
        ≡ codes "gatelift: 8 write: Report\n" }
    ensures write_out { line_of (end_of (endings.Stopped (stops.Write Out)))
        ≡ codes "gatelift: 8 write: Out\n" }
    ensures memory { line_of (end_of (endings.Stopped stops.Memory))
        ≡ codes "gatelift: 9 memory\n" }
    ensures deck_memory { line_of (end_of (endings.Deck decks.Memory))
        ≡ codes "gatelift: 9 memory\n" }
{}

/// Where `lift` is done, what it wrote is what was lifted of the bytes that it read, and it leads back to their flat deck:
/// `restore` of it, with the same top, is not refused, and writes the text of that flat deck unless a call fails.
pub fn lifted_files_lead_back()
    ensures lifted { (q : Request) (r : Run) → IsDone (lift_course q) r → IsLiftedBy q r }
    ensures taken { (q : Request) (r : Run) (x : IsLiftedBy q r) (back : RestoreRequest) (s : Run)
        (status : ℕ) → back.top ≡ q.top → HoldLifted back x.texts s
        → IsEnding status (restore_course back) s → IsTaken back x.written.flat status s }
{
    texts_lead_back();
}
