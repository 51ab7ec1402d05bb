//! Laws of the command line.

ghost use Rattle.std.specs.Prelude.{◌≡◌, ◌++◌, ℕ, List, [], ◌∷◌, Some, None, codes, true, false};
ghost use Rattle.clap.specs.declared.error.ErrorKind.TheVariants.{DisplayHelp, DisplayVersion, MissingSubcommand, UnknownArgument};
ghost use Rattle.web_cli.specs.Asked.{adds, asked_for, exports, imports, lacks_argument, makes, migrates, none, plain_words, reports, runs, serves, works};
ghost use Rattle.web_cli.specs.Examples.{asked_alone, asked_of_feed, asked_on_hall, asked_to_serve, asked_with_step, hall, morning};

/// A line with both flags asks for a run with their texts, in either order, whatever the texts are.
pub fn both_flags_ask_for_a_run()
    ensures in_order { (program from step : List ℕ) → asked_of_feed program
        ((codes "--from=" ++ from) ∷ (codes "--step=" ++ step) ∷ []) ≡ runs from step }
    ensures turned { (program from step : List ℕ) → asked_of_feed program
        ((codes "--step=" ++ step) ∷ (codes "--from=" ++ from) ∷ []) ≡ runs from step }
{}

/// Words behind the flags are their texts; but behind `--step` a number with a minus sign is read as none, and the line is a
/// line of `feed` all the same, where any other word with a hyphen is a flag.
pub fn words_behind_flags_are_their_texts()
    ensures plain { asked_with_step "60" ≡ runs morning (codes "60") }
    ensures signed { asked_with_step "-1" ≡ runs morning [] }
    ensures flag { asked_with_step "-x" ≡ none (UnknownArgument ∷ []) }
{}

/// A line of `init` names its file by its place, and organizer and event behind their flags, in either order; one of `token-add` names
/// its file and the token by their places.
pub fn files_and_tokens_are_known_by_their_places()
    ensures made { (program organizer event : List ℕ)
        → let o = codes "--organizer=" ++ organizer in let e = codes "--event=" ++ event
        in (asked_on_hall program "init" (o ∷ e ∷ []) ≡ makes hall organizer event)
        × (asked_for (program ∷ codes "init" ∷ e ∷ o ∷ hall ∷ []) ≡ makes hall organizer event) }
    ensures added { (program : List ℕ)
        → asked_on_hall program "token-add" (codes "secret" ∷ []) ≡ adds hall (codes "secret") }
    ensures lacking { (program text : List ℕ)
        → (asked_on_hall program "init" ((codes "--event=" ++ text) ∷ []) ≡ lacks_argument)
        × (asked_on_hall program "token-add" [] ≡ lacks_argument) }
{}

/// A line of `serve` names its file by its place, and the address behind a flag; how many connections there are, and that they are told of, may be left out.
pub fn a_served_file_is_known_by_its_place()
    ensures served { (program listen : List ℕ)
        → asked_to_serve program listen [] ≡ serves hall listen None false }
    ensures counted { (program listen connections : List ℕ)
        → asked_to_serve program listen ((codes "--connections=" ++ connections) ∷ [])
        ≡ serves hall listen (Some connections) false }
    ensures logged { (program listen : List ℕ)
        → asked_to_serve program listen (codes "--log" ∷ []) ≡ serves hall listen None true }
    ensures signed { asked_for (plain_words
        (codes "boxoffice" ∷ codes "serve" ∷ hall ∷ codes "--listen" ∷ codes "[::1]:80"
        ∷ codes "--connections" ∷ codes "-1" ∷ []))
        ≡ serves hall (codes "[::1]:80") (Some []) false }
    ensures lacking { (program : List ℕ) → asked_on_hall program "serve" [] ≡ lacks_argument }
{}

/// A line of `periodic`, of `export` or of `migrate` names its file by its place.
pub fn a_file_is_known_by_its_place()
    ensures worked { (program : List ℕ) → (asked_on_hall program "periodic" [] ≡ works hall)
        × (asked_alone program "periodic" ≡ lacks_argument) }
    ensures exported { (program : List ℕ) → (asked_on_hall program "export" [] ≡ exports hall)
        × (asked_alone program "export" ≡ lacks_argument) }
    ensures migrated { (program : List ℕ) → (asked_on_hall program "migrate" [] ≡ migrates hall)
        × (asked_alone program "migrate" ≡ lacks_argument) }
{}

/// A line of `import-vouchers` names both files by their places, the shop's first.
pub fn an_import_names_both_files()
    ensures { (program : List ℕ)
        → (asked_on_hall program "import-vouchers" (codes "codes.csv" ∷ [])
        ≡ imports hall (codes "codes.csv"))
        × (asked_on_hall program "import-vouchers" [] ≡ lacks_argument) }
{}

/// A line of `report` names its file and the report by their places, and a check-in list behind a flag, which may be left out.
pub fn a_report_is_known_by_its_place()
    ensures { (program list : List ℕ)
        → (asked_on_hall program "report" (codes "sales" ∷ []) ≡ reports hall (codes "sales") None)
        × (asked_on_hall program "report" (codes "door" ∷ (codes "--list=" ++ list) ∷ [])
        ≡ reports hall (codes "door") (Some list))
        × (asked_on_hall program "report" [] ≡ lacks_argument) }
{}

/// Help is shown where it is asked for.
pub fn help_is_shown()
    ensures { (program : List ℕ) → (asked_alone program "--help" ≡ none (DisplayHelp ∷ []))
        × (asked_of_feed program (codes "--help" ∷ []) ≡ none (DisplayHelp ∷ [])) }
{}

/// The version is shown where it is asked for, by the program alone.
pub fn the_version_is_shown()
    ensures long { (program : List ℕ)
        → asked_alone program "--version" ≡ none (DisplayVersion ∷ []) }
    ensures short { (program : List ℕ) → asked_alone program "-V" ≡ none (DisplayVersion ∷ []) }
    ensures alone { (program : List ℕ)
        → asked_of_feed program (codes "--version" ∷ []) ≡ none (UnknownArgument ∷ []) }
{}

/// A line without a command, or without one of the two flags, is wrong.
pub fn lines_that_lack_something_are_wrong()
    ensures { (program text : List ℕ) → (asked_for (program ∷ []) ≡ none (MissingSubcommand ∷ []))
        × (asked_alone program "feed" ≡ lacks_argument)
        × (asked_of_feed program ((codes "--from=" ++ text) ∷ []) ≡ lacks_argument)
        × (asked_of_feed program ((codes "--step=" ++ text) ∷ []) ≡ lacks_argument) }
{}
