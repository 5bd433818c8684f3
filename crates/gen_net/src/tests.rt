use crate::{gen_candidates, gen_points};
use std::test::Fail;

// The texts that another program generates from the seed 7.
const POINTS: &[u8] =
    b"name,x,y,z,plane,height\nF1,1065.278,1063.231,106.753,fixed,fixed\nF2,1018.673,5045.545,107.219,fixed,fixed\n";

const LAST_POINT: &[u8] = b"N5,4053.350,4076.875,100.173,8.0,11.8\n";

const CANDIDATES: &[u8] =
    b"name,kind,from,to,to2,sd,sdh,price\nv1,vector,F4,N1,,10.00,15.00,52\nv2,vector,F2,N1,,10.00,15.00,45\n";

const LAST_CANDIDATES: &[u8] =
    b"a4,angle,N5,F2,F3,15.00,,165\nl1,level,F1,N1,,10.00,,118\nl2,level,N1,N2,,10.00,,131\nl3,level,N2,N3,,10.00,,100\nl4,level,F4,N5,,10.00,,134\n";

#[test]
fn the_points_of_seed_7(rt: HostRuntime) -> Result<(), Fail> {
    let text = gen_points(rt.alloc(), 7)?;
    assert_eq!(rt; text.len(), 378);
    assert!(rt; text.starts_with(POINTS));
    assert!(rt; text.ends_with(LAST_POINT));
    Ok(())
}

#[test]
fn the_candidates_of_seed_7(rt: HostRuntime) -> Result<(), Fail> {
    let text = gen_candidates(rt.alloc(), 7)?;
    assert_eq!(rt; text.len(), 878);
    assert!(rt; text.starts_with(CANDIDATES));
    assert!(rt; text.ends_with(LAST_CANDIDATES));
    Ok(())
}
