// The tables that the steps of a justification fill.
ghost use Rattle.std.specs.Prelude.{◌≡◌, length};

// What each step leaves behind, the rows cited and the obligations discharged.
#[derive(Drop)]
pub struct StepTables {
    pub left: [u64; 2048],
    pub cited: [bool; 1024],
    pub discharged: [bool; 64],
    pub ghost left_long: { length left ≡ 2048 },
    pub ghost cited_long: { length cited ≡ 1024 },
    pub ghost discharged_long: { length discharged ≡ 64 },
}
