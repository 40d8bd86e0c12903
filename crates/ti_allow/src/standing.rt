//! In which strings a function may stand: made of docs/functions.tsv and docs/effects.tsv by docs/functions.py.

ghost use Rattle.std.specs.Prelude.{◌≡◌};
ghost use Rattle.ti_allow.specs.Rows.{texts_of};
ghost use Rattle.ti_allow.specs.Names.{names_of};

static EVERYWHERE: [&str; 0] = [];

static START: [&str; 8] = ["is1", "is2", "is3", "rs1", "rs2", "rs3", "OTi2", "OTrs"];

static U9: [&str; 1] = ["u9"];

static RECT: [&str; 1] = ["Rect"];

static SCREEN_START: [&str; 11] = [
    "smcup", "rmcup", "OTTI", "is1", "is2", "is3", "rs1", "rs2", "rs3", "OTi2", "OTrs",
];

static START_WS_Z0_Z1: [&str; 11] = [
    "is1", "is2", "is3", "rs1", "rs2", "rs3", "OTi2", "OTrs", "WS", "Z0", "Z1",
];

static MOUSE: [&str; 1] = ["XM"];

static FE_ENFCS: [&str; 2] = ["fe", "Enfcs"];

static BE_ENBP: [&str; 2] = ["BE", "Enbp"];

static START_SCREEN: [&str; 11] = [
    "is1", "is2", "is3", "rs1", "rs2", "rs3", "OTi2", "OTrs", "smcup", "rmcup", "OTTI",
];

static U7: [&str; 1] = ["u7"];

static RV: [&str; 1] = ["RV"];

static XR: [&str; 1] = ["XR"];

static TITLE_SCREEN: [&str; 7] = ["tsl", "fsl", "dsl", "TS", "smcup", "rmcup", "OTTI"];

static PRINT_START: [&str; 12] = [
    "mc0", "mc4", "mc5", "mc5p", "is1", "is2", "is3", "rs1", "rs2", "rs3", "OTi2", "OTrs",
];

static PRINT: [&str; 4] = ["mc0", "mc4", "mc5", "mc5p"];

static TITLE: [&str; 4] = ["tsl", "fsl", "dsl", "TS"];

static TITLE_START: [&str; 12] = [
    "tsl", "fsl", "dsl", "TS", "is1", "is2", "is3", "rs1", "rs2", "rs3", "OTi2", "OTrs",
];

static WS: [&str; 1] = ["WS"];

static PALETTE_START: [&str; 13] = [
    "initc", "initp", "oc", "Cs", "Cr", "is1", "is2", "is3", "rs1", "rs2", "rs3", "OTi2", "OTrs",
];

static CLIPBOARD: [&str; 1] = ["Ms"];

static SWD: [&str; 1] = ["Swd"];

static HLS: [&str; 1] = ["Hls"];

static FLASH: [&str; 1] = ["flash"];

static SYNC: [&str; 1] = ["Sync"];

static KEYPROG: [&str; 5] = ["pfkey", "pfloc", "pfx", "pfxl", "pln"];

static ANSWERS: [&str; 4] = ["u7", "u9", "RV", "XR"];

static EVENTS: [&str; 6] = ["XM", "BE", "fe", "Enfcs", "Enbp", "Eneks"];

static ENEKS: [&str; 1] = ["Eneks"];

static XM: [&str; 1] = ["XM"];

static WS_START: [&str; 9] = [
    "WS", "is1", "is2", "is3", "rs1", "rs2", "rs3", "OTi2", "OTrs",
];

static NOWHERE: [&str; 0] = [];

static MS: [&str; 1] = ["Ms"];

static DEVICE_START: [&str; 23] = [
    "pfkey", "pfloc", "pfx", "pfxl", "pln", "smkx", "rmkx", "smcup", "rmcup", "smsc", "rmsc",
    "tsl", "fsl", "dsl", "Sync", "is1", "is2", "is3", "rs1", "rs2", "rs3", "OTi2", "OTrs",
];

/// In which strings a function may stand.
#[derive(Clone, Copy, Debug, PartialEq, Eq)]
pub enum Standing {
    /// In all of them.
    Everywhere,
    /// `is1`, `is2`, `is3`, `rs1`, `rs2`, `rs3`, `OTi2`, `OTrs`.
    Start,
    /// `u9`.
    U9,
    /// `Rect`.
    Rect,
    /// `smcup`, `rmcup`, `OTTI`, `is1`, `is2`, `is3`, `rs1`, `rs2`, `rs3`, `OTi2`, `OTrs`.
    ScreenStart,
    /// `is1`, `is2`, `is3`, `rs1`, `rs2`, `rs3`, `OTi2`, `OTrs`, `WS`, `Z0`, `Z1`.
    StartWsZ0Z1,
    /// `XM`.
    Mouse,
    /// `fe`, `Enfcs`.
    FeEnfcs,
    /// `BE`, `Enbp`.
    BeEnbp,
    /// `is1`, `is2`, `is3`, `rs1`, `rs2`, `rs3`, `OTi2`, `OTrs`, `smcup`, `rmcup`, `OTTI`.
    StartScreen,
    /// `u7`.
    U7,
    /// `RV`.
    Rv,
    /// `XR`.
    Xr,
    /// `tsl`, `fsl`, `dsl`, `TS`, `smcup`, `rmcup`, `OTTI`.
    TitleScreen,
    /// `mc0`, `mc4`, `mc5`, `mc5p`, `is1`, `is2`, `is3`, `rs1`, `rs2`, `rs3`, `OTi2`, `OTrs`.
    PrintStart,
    /// `mc0`, `mc4`, `mc5`, `mc5p`.
    Print,
    /// `tsl`, `fsl`, `dsl`, `TS`.
    Title,
    /// `tsl`, `fsl`, `dsl`, `TS`, `is1`, `is2`, `is3`, `rs1`, `rs2`, `rs3`, `OTi2`, `OTrs`.
    TitleStart,
    /// `WS`.
    Ws,
    /// `initc`, `initp`, `oc`, `Cs`, `Cr`, `is1`, `is2`, `is3`, `rs1`, `rs2`, `rs3`, `OTi2`, `OTrs`.
    PaletteStart,
    /// `Ms`.
    Clipboard,
    /// `Swd`.
    Swd,
    /// `Hls`.
    Hls,
    /// `flash`.
    Flash,
    /// `Sync`.
    Sync,
    /// `pfkey`, `pfloc`, `pfx`, `pfxl`, `pln`.
    Keyprog,
    /// `u7`, `u9`, `RV`, `XR`.
    Answers,
    /// `XM`, `BE`, `fe`, `Enfcs`, `Enbp`, `Eneks`.
    Events,
    /// `Eneks`.
    Eneks,
    /// `XM`.
    Xm,
    /// `WS`, `is1`, `is2`, `is3`, `rs1`, `rs2`, `rs3`, `OTi2`, `OTrs`.
    WsStart,
    /// In none.
    Nowhere,
    /// `Ms`.
    Ms,
    /// `pfkey`, `pfloc`, `pfx`, `pfxl`, `pln`, `smkx`, `rmkx`, `smcup`, `rmcup`, `smsc`, `rmsc`, `tsl`, `fsl`, `dsl`, `Sync`, `is1`, `is2`, `is3`, `rs1`, `rs2`, `rs3`, `OTi2`, `OTrs`.
    DeviceStart,
}

impl Standing {
    /// The names of the strings, but for those of `Everywhere`.
    #[tactic(auto, unfolding(crate::specs::Names::names_of))]
    pub(crate) fn names(self) -> &'static [&'static str]
        ensures { texts_of result.now ≡ names_of self }
    {
        match self {
            Standing::Everywhere => &EVERYWHERE,
            Standing::Start => &START,
            Standing::U9 => &U9,
            Standing::Rect => &RECT,
            Standing::ScreenStart => &SCREEN_START,
            Standing::StartWsZ0Z1 => &START_WS_Z0_Z1,
            Standing::Mouse => &MOUSE,
            Standing::FeEnfcs => &FE_ENFCS,
            Standing::BeEnbp => &BE_ENBP,
            Standing::StartScreen => &START_SCREEN,
            Standing::U7 => &U7,
            Standing::Rv => &RV,
            Standing::Xr => &XR,
            Standing::TitleScreen => &TITLE_SCREEN,
            Standing::PrintStart => &PRINT_START,
            Standing::Print => &PRINT,
            Standing::Title => &TITLE,
            Standing::TitleStart => &TITLE_START,
            Standing::Ws => &WS,
            Standing::PaletteStart => &PALETTE_START,
            Standing::Clipboard => &CLIPBOARD,
            Standing::Swd => &SWD,
            Standing::Hls => &HLS,
            Standing::Flash => &FLASH,
            Standing::Sync => &SYNC,
            Standing::Keyprog => &KEYPROG,
            Standing::Answers => &ANSWERS,
            Standing::Events => &EVENTS,
            Standing::Eneks => &ENEKS,
            Standing::Xm => &XM,
            Standing::WsStart => &WS_START,
            Standing::Nowhere => &NOWHERE,
            Standing::Ms => &MS,
            Standing::DeviceStart => &DEVICE_START,
        }
    }
}
