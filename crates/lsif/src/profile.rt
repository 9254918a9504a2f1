//! The profiles: the parts of LSIF that dumps are read by, and the names by which requests, replies,
//! rows and commands name them. `specs/Profiles`.
ghost use Rattle.std.specs.Prelude.{◌≡◌};
ghost use Rattle.lsif.specs.Profiles.{profile_named, profile_number, profile_numbered, profile_text};

/// The part of LSIF that a dump is read by: which labels are read, and not as other labels.
#[derive(Clone, Copy, Debug, PartialEq, Eq)]
pub enum Profile {
    /// Definitions, references and hovers, with monikers, packages and events.
    One,
    /// What `One` reads; and declarations and implementations: vertices `declarationResult` and
    /// `implementationResult`, edges `textDocument/declaration` and `textDocument/implementation`.
    Two,
}

/// All profiles, by their numbers. Each reads the labels of those before it.
pub const PROFILES: [Profile; 2] = [Profile::One, Profile::Two];

impl Profile {
    /// The number by which replies and tables name it: 1 or 2.
    pub fn number(self) -> u32
        ensures { result ≡ profile_number self }
    {
        match self {
            Profile::One => 1,
            Profile::Two => 2,
        }
    }

    /// The number as requests and commands write it.
    fn text(self) -> &'static str
        ensures { result.now ≡ profile_text self }
    {
        match self {
            Profile::One => "1",
            Profile::Two => "2",
        }
    }

    /// The profile of this number.
    pub fn numbered(number: u32) -> Option<Profile>
        ensures { result ≡ profile_numbered number }
    {
        for profile in PROFILES {
            if number == profile.number() {
                return Some(profile);
            }
        }
        None
    }

    /// The profile that a request or a command names so.
    pub fn named(text: &str) -> Option<Profile>
        ensures { result ≡ profile_named text.now }
    {
        for profile in PROFILES {
            if text == profile.text() {
                return Some(profile);
            }
        }
        None
    }
}
