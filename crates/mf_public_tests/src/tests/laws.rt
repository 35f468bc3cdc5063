//! The laws that stand over definitions alone. There is nothing to assert: what they say is proved.

#[test]
fn hold(_rt: HostRuntime) {
    let _: () = mf_geom::laws::total_is_area();
    let _: () = mf_gf::laws::painted_back();
    let _: () = mf_live::laws::every_schedule(1_000_000);
}
